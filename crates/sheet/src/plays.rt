// The lines of a sheet, one after the other. A line and two books are lent, as for each call of a turn.
ghost use Rattle.std.specs.Prelude.{◌≡◌};
ghost use Rattle.reading.specs.Grammar.{reading};
ghost use Rattle.reading.specs.Lines.{lines};
ghost use Rattle.sheet.specs.Played.{readable, told, after, numbered, line_answers};
ghost use Rattle.turn.specs.Law.{TurnLaw};
ghost use Rattle.turn.specs.Turn.{run};
ghost use Rattle.turn.specs.Turns.{turn_of, New};
ghost use Rattle.writing.specs.Pens.{Writes};

use answers::refusals::{RefusedLine, SheetLineRefusal, SheetRefusal};
use answers::texts::put_told;
use block::instruments::BlockInstrument;
use book::Book;
use line::lines::Line;
use reading::calls::read_call;
use reading::lines::Lines;
use rules::slips::SealRow;
use turn::rows::RegisterRow;
use turn::turns::work;

// The heading is line 1.
const FIRST_AFTER_HEADING: usize = 2;

// Reads a line and works its call. A refused line changes nothing.
pub fn work_line<I: BlockInstrument>(
    line: &mut Line<I>,
    register: &mut Book<'_, RegisterRow>,
    seals: &mut Book<'_, SealRow>,
    text: &[u8],
) -> Result<(), SheetLineRefusal>
    ensures answered { result ≡ told (turn_of line.old register.old seals.old) (reading text.now) }
    ensures followed { turn_of line.new register.new seals.new ≡ after (turn_of line.old register.old seals.old) (reading text.now) }
{
    let call = read_call(text).map_err(|place| SheetLineRefusal::Unreadable { place })?;
    work(line, register, seals, call)?;
    Ok(())
}

// The same, with the line's number in its refusal.
pub fn play_line<I: BlockInstrument>(
    line: &mut Line<I>,
    register: &mut Book<'_, RegisterRow>,
    seals: &mut Book<'_, SealRow>,
    number: usize,
    text: &[u8],
) -> Result<(), SheetRefusal>
    ensures answered { result ≡ numbered number (told (turn_of line.old register.old seals.old) (reading text.now)) }
    ensures followed { turn_of line.new register.new seals.new ≡ after (turn_of line.old register.old seals.old) (reading text.now) }
{
    work_line(line, register, seals, text).map_err(|refusal| {
        SheetRefusal::from(RefusedLine {
            line: number,
            refusal,
        })
    })
}

// Plays the lines that follow a heading, and answers each. The turn is then the run of the readable calls, so that the law of
// every turn holds of one that began new.
pub fn play_lines<I: BlockInstrument>(
    line: &mut Line<I>,
    register: &mut Book<'_, RegisterRow>,
    seals: &mut Book<'_, SealRow>,
    sheet: &[u8],
    answer: &mut Book<'_, u8>,
)
    ensures played { turn_of line.new register.new seals.new ≡ run (turn_of line.old register.old seals.old) (readable (lines sheet.now)) }
    ensures answered { Writes (line_answers 2 (turn_of line.old register.old seals.old) (lines sheet.now)) answer.old answer.new }
    ensures lawful { New (turn_of line.old register.old seals.old) → TurnLaw (turn_of line.old register.old seals.old) (readable (lines sheet.now)) }
{
    for (text, number) in Lines::new(sheet).zip(FIRST_AFTER_HEADING..) {
        let told = play_line(line, register, seals, number, text);
        put_told(answer, number, told);
    }
}
