// 01's examples marked P, as one table that the checker computes (01, "Bench examples").
#![tactic(auto)]

ghost use Rattle.examples.specs.Claims.{BenchTable};

// The examples of 01 that are proved, together.
pub fn claims()
    ensures bench_table { BenchTable }
{}
