// Each refusal number with an example of it: the number that the last of some calls gets, 0 where it is accepted.
#![tactic(auto)]

ghost use Rattle.std.specs.Prelude.{◌^◌, ◌<◌};

use block::instruments::BlockInstrument;
use block::order::{Action, Direction};
use makes::interlocked::Interlocked;
use makes::piles::MixedPile;
use makes::telephone::Telephone;
use rules::calls::Call;
use rules::slips::{BLANK_SEAL, SealRow};
use std::{array, io};
use turn::refusals::TurnRefusal;
use turn::rows::{BLANK_ROW, RegisterRow};
use turn::turns::Turn;

// A short name for the calls below; each program has its own.
const UP: Direction = Direction::Up;

const GIVE: Call = Call::GiveRelease {
    section: 0,
    direction: UP,
};

const OPEN: Call = Call::OpenSignal {
    section: 0,
    direction: UP,
};

const PLACE: Call = Call::PlaceTrain { train: 5, post: 0 };

const ENTER: Call = Call::EnterSection {
    train: 5,
    section: 0,
};

const UNSEAL: Call = Call::UnsealSection {
    section: 0,
    direction: UP,
};

// Calls on a pile of two sections, with room in both books, each with the name by which it is printed.
const EXAMPLES: &[(&str, &[Call])] = &[
    (
        "G 2 u",
        &[Call::GiveRelease {
            section: 2,
            direction: UP,
        }],
    ),
    ("N 5 3", &[Call::PlaceTrain { train: 5, post: 3 }]),
    ("N 0 0", &[Call::PlaceTrain { train: 0, post: 0 }]),
    (
        "N 100000 0",
        &[Call::PlaceTrain {
            train: 100_000,
            post: 0,
        }],
    ),
    ("N 5 0 twice", &[PLACE, PLACE]),
    ("W 9", &[Call::WithdrawTrain { train: 9 }]),
    (
        "N 5 0, E 5 1",
        &[
            PLACE,
            Call::EnterSection {
                train: 5,
                section: 1,
            },
        ],
    ),
    (
        "F 0 u",
        &[Call::CloseSignal {
            section: 0,
            direction: UP,
        }],
    ),
    (
        "S 0 u",
        &[Call::ShutHome {
            section: 0,
            direction: UP,
        }],
    ),
    (
        "D 0 u",
        &[Call::ClearSection {
            section: 0,
            direction: UP,
        }],
    ),
    (
        "N 5 0, G 0 u, O 0 u, E 5 0, U 0 u",
        &[PLACE, GIVE, OPEN, ENTER, UNSEAL],
    ),
    ("G 0 u twice", &[GIVE, GIVE]),
    ("O 0 u", &[OPEN]),
    ("G 0 u, O 0 u twice", &[GIVE, OPEN, OPEN]),
];

// An instrument of two sections, and one that no line can be made over. The program cases has both too: no library is
// for what only programs try.
fn two() -> MixedPile<Interlocked, Telephone> {
    MixedPile {
        first: Interlocked::new(1),
        second: Telephone::new(1),
    }
}

fn not_at_rest() -> Telephone {
    let mut telephone = Telephone::new(1);
    let _ = telephone.operate(Action::Give, 0, UP);
    telephone
}

// What the last call is answered, on a new turn with books of these sizes.
fn last_answer<I: BlockInstrument + Drop>(
    instrument: I,
    rows: &mut [RegisterRow],
    slips: &mut [SealRow],
    calls: &[Call],
) -> Result<(), TurnRefusal> {
    let mut turn = Turn::new(instrument, rows, slips);
    calls
        .iter()
        .map(|&call| turn.work(call))
        .last()
        .unwrap_or(Ok(()))
}

// The same with room in both books.
fn answer_of<I: BlockInstrument + Drop>(instrument: I, calls: &[Call]) -> Result<(), TurnRefusal> {
    let mut rows = [BLANK_ROW; 80];
    let mut slips = [BLANK_SEAL; 4];
    last_answer(instrument, &mut rows, &mut slips, calls)
}

// The number of an answer, 0 where the call is accepted.
fn tell(rt: &impl Print, what: &str, answer: Result<(), TurnRefusal>) -> io::Result<()> {
    let number = answer.err().map_or(0, TurnRefusal::number);
    println!(rt; "{what}: {number}")
}

fn books(rt: &impl Print) -> io::Result<()> {
    let mut rows = [BLANK_ROW; 4];
    let mut slips = [BLANK_SEAL; 4];
    let full_register = last_answer(two(), &mut [], &mut slips, &[PLACE]);
    let full_seals = last_answer(two(), &mut rows, &mut [], &[UNSEAL]);
    tell(rt, "register of no rows, N 5 0", full_register)?;
    tell(rt, "seal book of no rows, U 0 u", full_seals)
}

fn making(rt: &impl Print) -> io::Result<()> {
    let none = answer_of(Interlocked::new(0), &[PLACE]);
    let unsettled = answer_of(not_at_rest(), &[PLACE]);
    tell(rt, "line over a count of 0, N 5 0", none)?;
    tell(rt, "line over a given section, N 5 0", unsettled)
}

// What the last of so many trains is answered, each placed at post 0.
fn last_placed<const N: usize>() -> Result<(), TurnRefusal>
    requires { N < 2 ^ 32 }
{
    let calls: [Call; N] = array::from_fn(|i| Call::PlaceTrain {
        train: i as u32 + 1,
        post: 0,
    });
    answer_of(two(), &calls)
}

fn trains(rt: &impl Print) -> io::Result<()> {
    tell(rt, "the 64th train", last_placed::<64>())?;
    tell(rt, "the 65th train", last_placed::<65>())
}

fn sections(rt: &impl Print) -> io::Result<()> {
    for (what, section) in [("G 15 u of 16", 15), ("G 16 u of 16", 16)] {
        let give = Call::GiveRelease {
            section,
            direction: UP,
        };
        tell(rt, what, answer_of(Interlocked::new(16), &[give]))?;
    }
    Ok(())
}

fn main(rt: HostRuntime) -> io::Result<()> {
    books(&rt)?;
    making(&rt)?;
    for (what, calls) in EXAMPLES {
        tell(&rt, what, answer_of(two(), calls))?;
    }
    trains(&rt)?;
    sections(&rt)
}
