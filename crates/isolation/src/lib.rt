// What code can come to, and that what it cannot come to has no influence on it.
#![tactic(auto)]

ghost use Rattle.isolation.specs.Claims.{Confined, SameReach};
ghost use Rattle.isolation.specs.Worked.{WorkedPair};

// Demand 3 over the machine's definition, and a pair of starts on which it is used.
pub fn claims()
    ensures confined { Confined }
    ensures same_reach { SameReach }
    ensures worked_pair { WorkedPair }
{}
