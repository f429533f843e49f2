// Three tests of a start, which books make too (01, "Stop numbers").
#![tactic(auto)]

ghost use Rattle.std.specs.Prelude.{◌≡◌, not, ◌&&◌};
ghost use Rattle.manual.specs.Accept.{sizes_fit, top_fits, loaded_fits};

use manual::Cap;

pub fn sizes_fit(flash: usize, ram: usize, tags: usize) -> bool
    ensures { result ≡ sizes_fit flash ram tags }
{
    mem::memory_fits(flash) && mem::memory_fits(ram) && mem::tags_fit(ram, tags)
}

// A tagged capability ends by 2^64.
pub fn top_fits(c: Cap) -> bool
    ensures { result ≡ top_fits c }
{
    !(c.tag && cap::past_top(c.base, c.length))
}

pub fn loaded_fits(loaded: Option<Cap>) -> bool
    ensures { result ≡ loaded_fits loaded }
{
    loaded.is_none_or(top_fits)
}
