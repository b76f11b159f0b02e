// The limits of a turn, by sheets that are too long to write down, and of the buffer for an answer.
use crate::cases::{Case, check, tell};
use answers::refusals::SheetRefusal;
use book::Book;
use sheet::sheets::{MOST_ANSWER, MOST_BYTES, play_sheet};
use writing::{put_number, put_text};

// Plays a heading and the lines that are put after it. Each line from 2 to the last accepted one is answered `ok`, and then
// comes the end of the answer.
fn check_limit<F: FnOnce(&mut Book<'_, u8>)>(
    rt: &impl Print,
    what: &'static str,
    put_lines: F,
    last_accepted: usize,
    end: &[u8],
) -> anyhow::Result<()>
    requires { F.IsAlwaysCallable put_lines }
{
    let mut sheet = [0u8; MOST_BYTES];
    let mut sheet = Book::new(&mut sheet);
    put_text(&mut sheet, b"I 2 1\n");
    put_lines(&mut sheet);
    let mut answer = [0u8; MOST_ANSWER];
    let mut answer = Book::new(&mut answer);
    put_text(&mut answer, b"turn 2 1\n");
    for line in 2..=last_accepted {
        put_number(&mut answer, line);
        put_text(&mut answer, b" ok\n");
    }
    put_text(&mut answer, end);
    let case = Case {
        what,
        sheet: sheet.filled(),
        answer: answer.filled(),
    };
    check(rt, &case)
}

fn check_register(rt: &impl Print) -> anyhow::Result<()> {
    check_limit(
        rt,
        "104: the 1,000th call is accepted, the 1,001st is not",
        |sheet| {
            for _ in 0..500 {
                put_text(sheet, b"H 0 u\nS 0 u\n");
            }
            put_text(sheet, b"H 0 u\n");
        },
        1_001,
        b"1002 no 104\ns 0 0 0 0 0 0\ns 1 0 0 0 0 0\n",
    )
}

fn check_seals(rt: &impl Print) -> anyhow::Result<()> {
    check_limit(
        rt,
        "105: the 50th unsealing is accepted, the 51st is not",
        |sheet| {
            for _ in 0..50 {
                put_text(sheet, b"G 0 u\nO 0 u\nF 0 u\nR 0 u\nU 0 u\nZ 0 u\n");
            }
            put_text(sheet, b"G 0 u\nO 0 u\nF 0 u\nR 0 u\nU 0 u\n");
        },
        305,
        b"306 no 105\ns 0 3 0 51 0 50\ns 1 0 0 0 0 0\n",
    )
}

fn check_trains(rt: &impl Print) -> anyhow::Result<()> {
    check_limit(
        rt,
        "207: the 64th train is taken, the 65th is not",
        |sheet| {
            for train in 1..=65 {
                put_text(sheet, b"N ");
                put_number(sheet, train);
                put_text(sheet, b" 0\n");
            }
        },
        65,
        b"66 no 207\ns 0 0 0 0 0 0\ns 1 0 0 0 0 0\n",
    )
}

// The number of the refusal of the empty sheet, which has no heading.
fn empty_refused(buffer: &mut [u8]) -> Option<u16> {
    play_sheet(b"", buffer).err().map(SheetRefusal::number)
}

fn check_buffers(rt: &impl Print) -> anyhow::Result<()> {
    let short = empty_refused(&mut [0u8; 599]) == Some(106);
    let enough = empty_refused(&mut [0u8; 600]) == Some(102);
    tell(rt, "106: the empty sheet in a buffer of 599 bytes", short)?;
    tell(rt, "102: the empty sheet in a buffer of 600 bytes", enough)
}

pub fn check_limits(rt: &impl Print) -> anyhow::Result<()> {
    check_register(rt)?;
    check_seals(rt)?;
    check_trains(rt)?;
    check_buffers(rt)
}
