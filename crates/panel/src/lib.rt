// The function that a panel, a C program, calls.
#![tactic(auto)]

ghost use Rattle.std.specs.Prelude.{◌≡◌, length};
ghost use Rattle.panel.specs.Numbers.{panel_number};
ghost use Rattle.sheet.specs.Sheets.{sheet_answer, answered_buffer, SheetLaw};

use sheet::sheets::play_sheet;

// Plays a sheet and writes its answer at the front of the buffer. The number of bytes written, or minus the number of the
// refusal; every byte past those written is as it was, and all of them where the sheet is refused.
#[unsafe(no_mangle)]
pub extern "C" fn gomtaiwu_play_sheet(sheet: &[u8], answer: &mut [u8]) -> i32
    ensures answered { result ≡ panel_number (sheet_answer (length answer.old) sheet.now) }
    ensures written { answer.new ≡ answered_buffer (sheet_answer (length answer.old) sheet.now) answer.old }
    ensures lawful { SheetLaw sheet.now }
{
    match play_sheet(sheet, answer) {
        Ok(written) => written as i32,
        Err(refusal) => -i32::from(refusal.number()),
    }
}
