// A whole sheet.
ghost use Rattle.std.specs.Prelude.{◌≡◌, ◌≤◌, length, take};
ghost use Rattle.sheet.specs.Sheets.{sheet_answer, printed, answer_length, answered_buffer, Fits, SheetLaw};

use crate::turns::play_turn;
use answers::refusals::SheetRefusal;
use answers::texts::put_refusal;
use book::Book;
use reading::headings::read_heading;
use reading::lines::{Lines, count_lines};

pub const MOST_BYTES: usize = 16_000;

pub const MOST_LINES: usize = 1_500;

// Room for the answer to each line, and for the rest of the answer.
pub const BYTES_FOR_A_LINE: usize = 20;

pub const BYTES_FOR_THE_REST: usize = 600;

// A buffer that is enough for every sheet.
pub const MOST_ANSWER: usize = 30_600;

// Plays a sheet and writes its answer at the front of the buffer; how many bytes that are. Every byte past them is as it was,
// and all of them where the sheet is refused whole.
#[tactic(auto, using(crate::proofs::Answering::too_many_bytes, crate::proofs::Answering::too_many_lines, crate::proofs::Answering::too_little_room, crate::proofs::Answering::left_to_heading, crate::proofs::Answering::no_line, crate::proofs::Answering::no_heading))]
pub fn play_sheet(sheet: &[u8], answer: &mut [u8]) -> Result<usize, SheetRefusal>
    ensures answered { result ≡ answer_length (sheet_answer (length answer.old) sheet.now) }
    ensures written { answer.new ≡ answered_buffer (sheet_answer (length answer.old) sheet.now) answer.old }
    ensures short { Fits result sheet.now }
    ensures lawful { SheetLaw sheet.now }
{
    if sheet.len() > MOST_BYTES {
        return Err(SheetRefusal::TooLong);
    }
    let lines = count_lines(sheet);
    if lines > MOST_LINES {
        return Err(SheetRefusal::TooLong);
    }
    if answer.len() < BYTES_FOR_A_LINE * lines + BYTES_FOR_THE_REST {
        return Err(SheetRefusal::ShortBuffer);
    }
    let mut lines = Lines::new(sheet);
    let first = lines.next().ok_or(SheetRefusal::BadHeading)?;
    let heading = read_heading(first).ok_or(SheetRefusal::BadHeading)?;
    let mut written = Book::new(answer);
    play_turn(heading, lines.rest(), &mut written);
    Ok(written.len())
}

// Plays a sheet and writes what a program prints of it: its answer, or the refusal of the whole sheet. How many bytes that are; what
// the buffer has no room for is lost.
#[tactic(auto, using(crate::proofs::Printing::printed_err))]
pub fn print_sheet(sheet: &[u8], buffer: &mut [u8]) -> usize
    ensures printed { take result buffer.new ≡ take (length buffer.old) (printed (sheet_answer (length buffer.old) sheet.now)) }
    ensures within { result ≤ length buffer.old }
{
    match play_sheet(sheet, buffer) {
        Ok(written) => written,
        Err(refusal) => {
            let mut text = Book::new(buffer);
            put_refusal(&mut text, refusal);
            text.len()
        }
    }
}
