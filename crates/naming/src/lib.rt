// What a start book has a record of: a register or a line, put at a place, and named there where it is not zero (01, "The start book").
#![tactic(auto)]

ghost use Rattle.std.specs.Prelude.{◌≡◌, ℕ, ◌+◌, ◌-◌, ◌*◌, ◌^◌, ◌<◌, ◌≤◌, Bool, cond, not, ◌&&◌, eqb, List, [], length};
ghost use Rattle.manual.specs.Store.{put};
ghost use Rattle.pages.specs.Compose.{record_of, cap_body, general_body, line_body, zero_cap, zero_bytes};
ghost use Rattle.pages.specs.Runs.{pieces, Runs};
ghost use Rattle.naming.specs.Steps.{Puts, PutsAtMost};

use compose::LINE_HEAD;
use inscribe::{CAP_RECORD, GENERAL_RECORD};
use manual::{Cap, LINE};
use std::ops::Range;

// The longest record of all.
const MOST: usize = LINE_HEAD + LINE;

// A register or a line.
pub trait Recorded: Copy {
    // Its record, and whether it is zero: then a book does not name it.
    ghost spelled: { Self → List ℕ };

    ghost nothing: { Self → Bool };

    // Writes its record at a place, nothing where it does not fit; the bytes of that record.
    fn put(self, out: &mut [u8], at: usize) -> usize
        ensures value { result ≡ length (spelled self) }
        ensures out_after { out.new ≡ put out.old at (spelled self) };

    fn is_zero(self) -> bool
        ensures { result ≡ nothing self };

    // Puts it where a book names it; 0 where there is no record.
    final fn name(self, out: &mut [u8], at: usize) -> usize
        ensures value { result ≡ length (cond (nothing self) [] (spelled self)) }
        ensures out_after { out.new ≡ put out.old at (cond (nothing self) [] (spelled self)) }
    {
        if self.is_zero() {
            return 0;
        }
        self.put(out, at)
    }
}

// A capability register, or PCC. Its capability is lent: to copy it for each register took longer than all else.
#[derive(Clone, Copy)]
pub struct Register<'a> {
    pub number: u8,
    pub cap: &'a Cap,
}

impl<'a> Recorded for Register<'a> {
    ghost spelled = { λ r. record_of (cap_body r.number r.cap.now) };

    ghost nothing = { λ r. zero_cap r.cap.now };

    fn put(self, out: &mut [u8], at: usize) -> usize {
        inscribe::put_cap(out, at, self.number, *self.cap);
        CAP_RECORD
    }

    fn is_zero(self) -> bool {
        compose::is_zero(*self.cap)
    }
}

// A general register.
#[derive(Clone, Copy)]
pub struct General {
    pub number: u8,
    pub value: u64,
}

impl Recorded for General {
    ghost spelled = { λ r. record_of (general_body r.number r.value) };

    ghost nothing = { λ r. eqb r.value 0 };

    fn put(self, out: &mut [u8], at: usize) -> usize {
        inscribe::put_general(out, at, self.number, self.value);
        GENERAL_RECORD
    }

    fn is_zero(self) -> bool {
        self.value == 0
    }
}

// A line of the RAM, and its tag.
#[derive(Clone, Copy)]
pub struct Line<'a> {
    pub address: u64,
    pub tag: bool,
    pub bytes: &'a [u8],
}

impl<'a> Recorded for Line<'a> {
    ghost spelled = { λ l. record_of (line_body l.address l.tag l.bytes.now) };

    ghost nothing = { λ l. not l.tag && zero_bytes l.bytes.now };

    fn put(self, out: &mut [u8], at: usize) -> usize {
        compose::put_line(out, at, self.address, self.tag, self.bytes);
        LINE_HEAD + self.bytes.len()
    }

    fn is_zero(self) -> bool {
        !self.tag && compose::all_zero(self.bytes)
    }
}

// What numbers have to say, each put by `step` behind the one before; where the last one ends. Nothing is said of a step that puts more than the
// longest record, or where `numbers.end` of those do not end below 2^64.
pub fn put_each<F: Fn(usize, &mut [u8], usize) -> usize>(
    numbers: Range<usize>,
    step: F,
    out: &mut [u8],
    at: usize,
) -> usize
    requires { (i end : ℕ) (o : _) → numbers.start ≤ i → i < numbers.end → F.pre step i o end }
    ensures { PutsAtMost numbers.start numbers.end (F.post step) MOST → at + numbers.end * MOST < 2 ^ 64
        → (piece : ℕ → List ℕ) → Puts numbers.start numbers.end (F.post step) piece
        → Runs out.old at (pieces (numbers.end - numbers.start) numbers.start piece) out.new result }
{
    let mut end = at;
    for i in numbers.start..numbers.end {
        end = end.saturating_add(step(i, out, end));
    }
    end
}
