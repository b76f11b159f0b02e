// What no heading asks for: books with no room, and instruments that no call can be worked over; and what no line can say.
use crate::cases::{Case, compare, tell};
use block::instruments::BlockInstrument;
use block::order::{Action, Direction};
use book::Book;
use line::lines::Line;
use makes::interlocked::Interlocked;
use makes::piles::MixedPile;
use makes::telephone::Telephone;
use rules::calls::Call;
use rules::slips::{BLANK_SEAL, SealRow};
use sheet::plays::play_lines;
use turn::rows::{BLANK_ROW, RegisterRow};
use turn::turns::Turn;

// A short name for the calls below; each program has its own.
const UP: Direction = Direction::Up;

const FULL_REGISTER: Case = Case {
    what: "104: N 5 0, and a register of no rows",
    sheet: b"N 5 0\n",
    answer: b"2 no 104\n",
};

const FULL_SEALS: Case = Case {
    what: "105: U 0 u, and a seal book of no rows",
    sheet: b"U 0 u\n",
    answer: b"2 no 105\n",
};

const NO_SECTION: Case = Case {
    what: "201: N 5 0, and an instrument of no section",
    sheet: b"N 5 0\n",
    answer: b"2 no 201\n",
};

const NOT_AT_REST: Case = Case {
    what: "202: N 5 0, and an instrument with a given section",
    sheet: b"N 5 0\n",
    answer: b"2 no 202\n",
};

// An instrument of two sections, and one that no line can be made over. The program numbers has both too: no library is
// for what only programs try.
fn two() -> MixedPile<Interlocked, Telephone> {
    MixedPile {
        first: Interlocked::new(1),
        second: Telephone::new(1),
    }
}

fn not_at_rest() -> Telephone {
    let mut telephone = Telephone::new(1);
    let _ = telephone.operate(Action::Give, 0, UP);
    telephone
}

// Plays the lines over an instrument, with books of these sizes.
fn check_turn<I: BlockInstrument + Drop>(
    rt: &impl Print,
    case: &Case<'_>,
    instrument: I,
    rows: &mut [RegisterRow],
    slips: &mut [SealRow],
) -> anyhow::Result<()> {
    let mut line = Line::new(instrument);
    let mut register = Book::new(rows);
    let mut seals = Book::new(slips);
    let mut answer = [0u8; 100];
    let mut answer = Book::new(&mut answer);
    play_lines(
        &mut line,
        &mut register,
        &mut seals,
        case.sheet,
        &mut answer,
    );
    compare(rt, case, answer.filled())
}

// On a sheet, 100,000 has a digit too many.
fn check_train(rt: &impl Print) -> anyhow::Result<()> {
    let mut rows = [BLANK_ROW; 1];
    let mut turn = Turn::new(two(), &mut rows, &mut []);
    let call = Call::PlaceTrain {
        train: 100_000,
        post: 0,
    };
    let refused = turn
        .work(call)
        .is_err_and(|refusal| refusal.number() == 205);
    tell(rt, "205: train 100000", refused)
}

// A line refuses such a section before it asks its instrument.
fn check_phase(rt: &impl Print) -> anyhow::Result<()> {
    let refused = two().phase(2).is_err_and(|refusal| refusal.number() == 301);
    tell(rt, "301: the phase of section 2 of 2", refused)
}

pub fn check_turns(rt: &impl Print) -> anyhow::Result<()> {
    let mut rows = [BLANK_ROW; 1];
    let mut slips = [BLANK_SEAL; 1];
    check_turn(rt, &FULL_REGISTER, two(), &mut [], &mut slips)?;
    check_turn(rt, &FULL_SEALS, two(), &mut rows, &mut [])?;
    check_turn(rt, &NO_SECTION, Interlocked::new(0), &mut rows, &mut slips)?;
    check_turn(rt, &NOT_AT_REST, not_at_rest(), &mut rows, &mut slips)?;
    check_train(rt)?;
    check_phase(rt)
}
