// The turn of a sheet, over the instrument that its heading asks for.
ghost use Rattle.std.specs.Prelude.{◌≡◌, ◌<◌, ◌≤◌, length, replicate};
ghost use Rattle.block.specs.declared.order.Phase.TheVariants.{Rest};
ghost use Rattle.reading.specs.Headings.{GoodHeading};
ghost use Rattle.reading.specs.Lines.{lines};
ghost use Rattle.sheet.specs.Played.{readable};
ghost use Rattle.sheet.specs.Sheets.{first_turn, played_text, least_room};
ghost use Rattle.turn.specs.Law.{TurnLaw};
ghost use Rattle.writing.specs.Pens.{Writes};

use crate::plays::play_lines;
use answers::sections::put_sections;
use answers::texts::put_heading;
use block::instruments::BlockInstrument;
use book::Book;
use line::lines::Line;
use makes::interlocked::Interlocked;
use makes::piles::MixedPile;
use makes::telephone::Telephone;
use reading::headings::Heading;
use rules::slips::BLANK_SEAL;
use turn::rows::BLANK_ROW;

// Plays the lines after a heading over an instrument at rest, with a register of 1,000 rows and a seal book of 50, and writes
// the whole answer.
fn play_over<I: BlockInstrument>(
    instrument: I,
    heading: Heading,
    sheet: &[u8],
    answer: &mut Book<'_, u8>,
)
where
    I: Drop,
    requires good { GoodHeading heading }
    requires at_rest { I.phases instrument ≡ replicate heading.sections Rest }
    ensures answered { Writes (played_text heading (lines sheet.now)) answer.old answer.new }
    ensures short { length (lines sheet.now) < 9000 → length (played_text heading (lines sheet.now)) ≤ least_room (length (lines sheet.now)) }
    ensures lawful { TurnLaw (first_turn heading) (readable (lines sheet.now)) }
{
    let mut line = Line::new(instrument);
    let mut rows = [BLANK_ROW; 1_000];
    let mut register = Book::new(&mut rows);
    let mut slips = [BLANK_SEAL; 50];
    let mut seals = Book::new(&mut slips);
    put_heading(answer, heading);
    play_lines(&mut line, &mut register, &mut seals, sheet, answer);
    put_sections(answer, &line, &register);
}

// The same over a mixed pile: the first sections interlocked, as many as the heading says, and the others by telephone.
#[tactic(auto, using(crate::proofs::Beginning::pile_rest))]
pub(crate) fn play_turn(heading: Heading, sheet: &[u8], answer: &mut Book<'_, u8>)
    requires good { GoodHeading heading }
    ensures answered { Writes (played_text heading (lines sheet.now)) answer.old answer.new }
    ensures short { length (lines sheet.now) < 9000 → length (played_text heading (lines sheet.now)) ≤ least_room (length (lines sheet.now)) }
    ensures lawful { TurnLaw (first_turn heading) (readable (lines sheet.now)) }
{
    let pile = MixedPile {
        first: Interlocked::new(heading.interlocked),
        second: Telephone::new(heading.sections - heading.interlocked),
    };
    play_over(pile, heading, sheet, answer);
}
