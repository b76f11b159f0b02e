// One line of a sheet, read as a call.
ghost use Rattle.std.specs.Prelude.{◌≡◌};
ghost use Rattle.reading.specs.Grammar.{reading};
ghost use Rattle.reading.specs.Law.{ReadAs};

use crate::reader::Reader;
use rules::calls::Call;

// The call, where the line is what is written of it; else the place of the first byte after which no good line can follow.
pub fn read_call(line: &[u8]) -> Result<Call, usize>
    ensures value { result ≡ reading line.now }
    ensures lawful { ReadAs line.now result }
{
    let mut reader = Reader::new(line);
    match reader.call() {
        Some(call) if reader.at() == line.len() => Ok(call),
        _ => Err(reader.at()),
    }
}
