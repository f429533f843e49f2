// A book read for a reader outside: its registers handed out as bytes, its RAM and its tags.
#![tactic(auto)]

ghost use Rattle.std.specs.Prelude.{◌≡◌};
ghost use Rattle.pages.specs.Handing.{read_into};

use giving::REGISTERS;
use manual::Refusal;

// Reads a book: 0 or the refusal, the registers that it gives in `registers`, and its RAM and its tags. The answer is C's number.
pub fn read_into(
    book: &[u8],
    flash: usize,
    ram: &mut [u8],
    tags: &mut [u8],
    registers: &mut [u8],
) -> u8
    ensures code { result ≡ (read_into book.now flash ram.old tags.old registers.old).code }
    ensures ram { ram.new ≡ (read_into book.now flash ram.old tags.old registers.old).ram }
    ensures tags { tags.new ≡ (read_into book.now flash ram.old tags.old registers.old).tags }
    ensures registers { registers.new ≡ (read_into book.now flash ram.old tags.old registers.old).registers }
{
    if registers.len() < REGISTERS {
        return told::refusal_number(Refusal::Room);
    }
    match enter::read_book(book, flash, ram, tags) {
        Ok(m) => {
            giving::put_registers(m, registers);
            0
        }
        Err(refusal) => {
            giving::put_registers(entering::zero_machine(), registers);
            told::refusal_number(refusal)
        }
    }
}
