// The model as a static library for C: numbers and lent buffers in, 01's number out. include/pommerzil.h is its header.
#![tactic(auto)]

ghost use Rattle.std.specs.Prelude.{◌≡◌};
ghost use Rattle.pages.specs.Handing.{read_into};
ghost use Rattle.pages.specs.Exported.{run_into};
ghost use Rattle.pages.specs.Taking.{write_from};
ghost use Rattle.manual.specs.Told.{code_of, bytes_of};

use manual::Refusal;
use told::ANSWER_NUMBERS;

// Reads a book and runs it: the stop or the refusal, and the whole answer in `answer`.
#[unsafe(no_mangle)]
pub extern "C" fn pommerzil_run(
    book: &[u8],
    flash: &[u8],
    ram: &mut [u8],
    tags: &mut [u8],
    budget: u32,
    answer: &mut [u64],
) -> u8
    ensures code { result ≡ (run_into budget book.now flash.now ram.old tags.old answer.old).code }
    ensures ram { ram.new ≡ (run_into budget book.now flash.now ram.old tags.old answer.old).ram }
    ensures tags { tags.new ≡ (run_into budget book.now flash.now ram.old tags.old answer.old).tags }
    ensures answer { answer.new ≡ (run_into budget book.now flash.now ram.old tags.old answer.old).answer }
{
    if answer.len() < ANSWER_NUMBERS {
        return told::refusal_number(Refusal::Room);
    }
    let a = answer::run_book(book, flash, ram, tags, budget);
    told::put_answer(a, answer);
    a.stop
}

// Reads a book: 0 or the refusal, the registers that it gives in `registers`, and its RAM and its tags.
#[unsafe(no_mangle)]
pub extern "C" fn pommerzil_read(
    book: &[u8],
    flash: usize,
    ram: &mut [u8],
    tags: &mut [u8],
    registers: &mut [u8],
) -> u8
    ensures code { result ≡ (read_into book.now flash ram.old tags.old registers.old).code }
    ensures ram { ram.new ≡ (read_into book.now flash ram.old tags.old registers.old).ram }
    ensures tags { tags.new ≡ (read_into book.now flash ram.old tags.old registers.old).tags }
    ensures registers { registers.new ≡ (read_into book.now flash ram.old tags.old registers.old).registers }
{
    handing::read_into(book, flash, ram, tags, registers)
}

// Writes a book: 0 or the refusal, the book from byte 0 of `book` on, and in `written` how many bytes it has.
#[unsafe(no_mangle)]
pub extern "C" fn pommerzil_write(
    registers: &[u8],
    ram: &[u8],
    tags: &[u8],
    book: &mut [u8],
    written: &mut usize,
) -> u8
    ensures code { result ≡ code_of (write_from registers.now ram.now tags.now book.old).written }
    ensures book { book.new ≡ (write_from registers.now ram.now tags.now book.old).out }
    ensures written { written.new ≡ bytes_of (write_from registers.now ram.now tags.now book.old).written }
{
    let answer = taking::write_from(registers, ram, tags, book);
    *written = told::bytes_of(answer);
    told::code_of(answer)
}
