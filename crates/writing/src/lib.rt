// Writing an answer: bytes, entered into a lent buffer for as long as it has room. Not by `write!`: nothing says that it succeeds
// where each of its parts is written, so that what the buffer then holds could not be promised.
#![tactic(auto)]

ghost use Rattle.std.specs.Prelude.{[], ◌∷◌, decimal};
ghost use Rattle.writing.specs.Pens.{Writes};

use book::Book;

pub mod laws;

// A byte. A full buffer stays as it is, so that what is written last is lost, and never what stands before it.
#[tactic(auto, using(crate::proofs::Bytes::one_byte), unfolding(crate::specs::Pens::wrote))]
pub fn put(answer: &mut Book<'_, u8>, byte: u8)
    ensures { Writes (byte ∷ []) answer.old answer.new }
{
    let _ = answer.add(byte);
}

#[tactic(auto, using(crate::specs::Facts::wrote_nothing, crate::specs::Facts::wrote_twice, std::proofs::lemmas::List::take_more))]
pub fn put_text(answer: &mut Book<'_, u8>, text: &[u8])
    ensures { Writes text.now answer.old answer.new }
{
    for byte in text {
        put(answer, *byte);
    }
}

// A number in decimal, with no zero in front. Its last digit is known first and written last.
#[tactic(auto, using(crate::specs::Facts::wrote_twice, std::proofs::lemmas::Fmt::decimal_digit, std::proofs::lemmas::Fmt::decimal_step))]
pub fn put_number(answer: &mut Book<'_, u8>, n: usize)
    ensures { Writes (decimal n) answer.old answer.new }
{
    if n >= 10 {
        put_number(answer, n / 10);
    }
    put(answer, b'0' + (n % 10) as u8);
}

// A number that follows others on its line: a space parts it from what stands before it.
#[tactic(auto, using(crate::specs::Facts::wrote_twice))]
pub fn put_field(answer: &mut Book<'_, u8>, n: usize)
    ensures { Writes (32 ∷ decimal n) answer.old answer.new }
{
    put(answer, b' ');
    put_number(answer, n);
}
