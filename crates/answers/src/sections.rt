// How the sections stand at the end of a turn.
ghost use Rattle.std.specs.Prelude.{◌≡◌, ◌*◌, ◌<◌, ◌≤◌, length};
ghost use Rattle.answers.specs.Texts.{section_text, section_texts};
ghost use Rattle.block.specs.Meaning.{phase_at};
ghost use Rattle.block.specs.Order.{phase_code};
ghost use Rattle.rules.specs.State.{count};
ghost use Rattle.turn.specs.Turns.{book_of};
ghost use Rattle.writing.specs.Pens.{Writes};

use crate::texts::put_fields;
use block::instruments::BlockInstrument;
use book::Book;
use line::lines::Line;
use turn::rows::RegisterRow;
use turn::tallies::tally;
use writing::put;

// The number of the phase, which an answer tells.
#[tactic(auto, using(block::proofs::Laws::phase_there))]
fn phase_code<I: BlockInstrument>(line: &Line<I>, section: u32) -> u8
    requires { section < count line.now }
    ensures { result ≡ phase_code (phase_at line.now.phases section) }
{
    match line.phase(section) {
        Ok(phase) => phase.code(),
        Err(_) => unreachable!(),
    }
}

// One section: its phase, the train inside or 0, and its tally. It takes at most 33 bytes. What shift prints of a section is a text of
// its own, with the same numbers.
#[tactic(auto, using(writing::specs::Facts::wrote_twice, crate::proofs::Bounds::section_short, crate::proofs::TextParts::one_section), unfolding(crate::specs::Texts::section_text))]
fn put_section<I: BlockInstrument>(
    answer: &mut Book<'_, u8>,
    line: &Line<I>,
    register: &Book<'_, RegisterRow>,
    section: u32,
)
    requires { section < count line.now }
    ensures written { Writes (section_text line.now (book_of register.now).rows section) answer.old answer.new }
    ensures short { section < 100 → length (book_of register.now).rows < 10000 → length (section_text line.now (book_of register.now).rows section) ≤ 33 }
{
    let phase = phase_code(line, section);
    let train = line.train_inside(section).unwrap_or(0);
    let (givings, leavings, unsealings) = tally(register, section);
    put(answer, b's');
    put_fields(
        answer,
        &[
            section as usize,
            phase as usize,
            train as usize,
            givings,
            leavings,
            unsealings,
        ],
    );
    put(answer, b'\n');
}

// Every section in turn, in at most 33 bytes each.
#[tactic(auto, using(writing::specs::Facts::wrote_nothing, writing::specs::Facts::wrote_twice, crate::proofs::TextParts::next_section, std::proofs::Common::append_assoc))]
pub fn put_sections<I: BlockInstrument>(
    answer: &mut Book<'_, u8>,
    line: &Line<I>,
    register: &Book<'_, RegisterRow>,
)
    ensures written { Writes (section_texts line.now (book_of register.now).rows (count line.now)) answer.old answer.new }
    ensures short { length (book_of register.now).rows < 10000 → length (section_texts line.now (book_of register.now).rows (count line.now)) ≤ 33 * 16 }
{
    for section in 0..line.count() {
        put_section(answer, line, register, section);
    }
}
