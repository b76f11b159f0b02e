// The text of each answer.
ghost use Rattle.std.specs.Prelude.{◌≡◌, length};
ghost use Rattle.answers.specs.Numbers.{found_values, line_values, turn_values, refusal_values};
ghost use Rattle.answers.specs.Texts.{fields_of, heading_text, refusal_text, told_text};
ghost use Rattle.writing.specs.Pens.{Writes};

use crate::refusals::{SheetLineRefusal, SheetRefusal};
use block::refusals::InstrumentRefusal;
use book::Book;
use reading::headings::Heading;
use rules::refusals::LineRefusal;
use turn::refusals::TurnRefusal;
use writing::{put, put_field, put_number, put_text};

// Each number as a field of its own.
#[tactic(auto, using(writing::specs::Facts::wrote_nothing, writing::specs::Facts::wrote_twice, crate::proofs::Chains::fields_last, std::proofs::lemmas::List::take_more))]
pub(crate) fn put_fields(answer: &mut Book<'_, u8>, numbers: &[usize])
    ensures { Writes (fields_of numbers.now) answer.old answer.new }
{
    for n in numbers {
        put_field(answer, *n);
    }
}

// The first line of an answer.
#[tactic(auto, using(writing::specs::Facts::wrote_twice))]
pub fn put_heading(answer: &mut Book<'_, u8>, heading: Heading)
    ensures { Writes (heading_text heading) answer.old answer.new }
{
    put_text(answer, b"turn");
    put_fields(
        answer,
        &[heading.sections as usize, heading.interlocked as usize],
    );
    put(answer, b'\n');
}

// The section and the phase found, where the instrument has that section.
#[tactic(auto, using(writing::specs::Facts::wrote_nothing, crate::proofs::Valueless::found_both))]
fn put_found(answer: &mut Book<'_, u8>, refusal: InstrumentRefusal)
    ensures { Writes (fields_of (found_values refusal)) answer.old answer.new }
{
    match refusal {
        InstrumentRefusal::NoSection { .. } => {}
        found => put_fields(
            answer,
            &[found.section() as usize, found.phase_code() as usize],
        ),
    }
}

// One refusal opens the next: of the last arm of a nested pattern a proof does not know what it is not.
#[tactic(auto, using(writing::specs::Facts::wrote_nothing, crate::proofs::Valueless::line_valueless))]
fn put_line_values(answer: &mut Book<'_, u8>, refusal: LineRefusal)
    ensures { Writes (fields_of (line_values refusal)) answer.old answer.new }
{
    if let LineRefusal::Instrument(refusal) = refusal {
        put_found(answer, refusal);
    }
}

#[tactic(auto, using(writing::specs::Facts::wrote_nothing, crate::proofs::Valueless::turn_valueless))]
fn put_turn_values(answer: &mut Book<'_, u8>, refusal: TurnRefusal)
    ensures { Writes (fields_of (turn_values refusal)) answer.old answer.new }
{
    if let TurnRefusal::Line(refusal) = refusal {
        put_line_values(answer, refusal);
    }
}

// What a refusal's number does not tell.
fn put_values(answer: &mut Book<'_, u8>, refusal: SheetLineRefusal)
    ensures { Writes (fields_of (refusal_values refusal)) answer.old answer.new }
{
    match refusal {
        SheetLineRefusal::Unreadable { place } => put_field(answer, place),
        SheetLineRefusal::Turn(refusal) => put_turn_values(answer, refusal),
    }
}

// A refusal: of a line with its number in front, of a whole sheet with none.
#[tactic(auto, using(writing::specs::Facts::wrote_twice, std::proofs::Common::append_assoc), unfolding(crate::specs::Texts::refusal_text))]
pub fn put_refusal(answer: &mut Book<'_, u8>, refusal: SheetRefusal)
    ensures { Writes (refusal_text refusal) answer.old answer.new }
{
    match refusal {
        SheetRefusal::Line(refused) => {
            put_number(answer, refused.line);
            put_text(answer, b" no");
            put_field(answer, refused.refusal.number() as usize);
            put_values(answer, refused.refusal);
        }
        whole => {
            put_text(answer, b"no");
            put_field(answer, whole.number() as usize);
        }
    }
    put(answer, b'\n');
}

// The answer to a line of a sheet, by the line's number.
#[tactic(auto, using(writing::specs::Facts::wrote_twice), unfolding(crate::specs::Texts::told_text))]
pub fn put_told(answer: &mut Book<'_, u8>, line: usize, told: Result<(), SheetRefusal>)
    ensures { Writes (told_text line told) answer.old answer.new }
{
    match told {
        Ok(()) => {
            put_number(answer, line);
            put_text(answer, b" ok\n");
        }
        Err(refusal) => put_refusal(answer, refusal),
    }
}
