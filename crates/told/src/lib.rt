// The numbers of what is told of a start, of a book and of a run (01, "Stop numbers" and "Bench examples").
#![tactic(auto)]

ghost use Rattle.std.specs.Prelude.{◌≡◌};
ghost use Rattle.manual.specs.Told.{refusal_number, code_of, bytes_of, refusing, answer_put};

use manual::{Answer, Refusal};

// How many numbers an answer has.
pub const ANSWER_NUMBERS: usize = 5;

// A function and no From: of the numbers that are told, its name says which.
pub fn refusal_number(refusal: Refusal) -> u8
    ensures { result ≡ refusal_number refusal }
{
    match refusal {
        Refusal::Sizes => 20,
        Refusal::TagByte => 21,
        Refusal::Top => 22,
        Refusal::Width => 24,
        Refusal::Version => 30,
        Refusal::Cut => 31,
        Refusal::Kind => 32,
        Refusal::Order => 33,
        Refusal::Field => 34,
        Refusal::Waiting => 35,
        Refusal::Room => 36,
    }
}

// 0, or the number of the refusal.
pub fn code_of<T: Copy>(answer: Result<T, Refusal>) -> u8
    ensures { result ≡ code_of answer }
{
    match answer {
        Ok(_) => 0,
        Err(refusal) => refusal_number(refusal),
    }
}

pub fn bytes_of(written: Result<usize, Refusal>) -> usize
    ensures { result ≡ bytes_of written }
{
    written.unwrap_or(0)
}

pub fn refusing(refusal: Refusal) -> Answer
    ensures { result ≡ refusing refusal }
{
    Answer {
        stop: refusal_number(refusal),
        cause: 0,
        register: 0,
        place: 0,
        steps: 0,
    }
}

// The numbers at the front of a buffer; none where they do not all fit.
pub fn put_answer(a: Answer, answer: &mut [u64])
    ensures { answer.new ≡ answer_put a answer.old }
{
    if answer.len() < ANSWER_NUMBERS {
        return;
    }
    answer[0] = u64::from(a.stop);
    answer[1] = u64::from(a.cause);
    answer[2] = u64::from(a.register);
    answer[3] = a.place;
    answer[4] = u64::from(a.steps);
}
