// What the writer of start books spells, their reader finds.
#![tactic(auto)]

ghost use Rattle.reread.specs.Records.{CapIsRead, GeneralIsRead, LineIsRead};
ghost use Rattle.reread.specs.Claims.{WrittenIsAccepted, WrittenAndRead};

// Each record that the writer spells is read as what was written; a book that it wrote is accepted, and gives back what was written.
pub fn claims()
    ensures cap_is_read { CapIsRead }
    ensures general_is_read { GeneralIsRead }
    ensures line_is_read { LineIsRead }
    ensures written_is_accepted { WrittenIsAccepted }
    ensures written_and_read { WrittenAndRead }
{}
