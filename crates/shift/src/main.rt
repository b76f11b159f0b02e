// Plays a short turn over instruments of every make, and prints each call with its answer; at the end, of each section the
// phase, the train inside it or 0, and its tally.
#![tactic(auto)]

use crate::texts::{AnswerText, CallText};
use block::instruments::BlockInstrument;
use block::order::{Direction, Phase};
use block::refusals::InstrumentRefusal;
use makes::interlocked::Interlocked;
use makes::piles::MixedPile;
use makes::telephone::Telephone;
use pocket::Pocket;
use rules::calls::Call;
use rules::slips::BLANK_SEAL;
use std::io;
use turn::rows::BLANK_ROW;
use turn::tallies::tally;
use turn::turns::Turn;

mod texts;

// A short name for the calls below; each program has its own.
const UP: Direction = Direction::Up;

const DOWN: Direction = Direction::Down;

// A train through section 0, with a release tried against it; a release for section 1, given back by an unsealing.
const CALLS: [Call; 20] = [
    Call::PlaceTrain {
        train: 3020,
        post: 0,
    },
    Call::GiveRelease {
        section: 0,
        direction: UP,
    },
    Call::OpenSignal {
        section: 0,
        direction: UP,
    },
    Call::EnterSection {
        train: 3020,
        section: 0,
    },
    Call::GiveRelease {
        section: 0,
        direction: DOWN,
    },
    Call::CloseSignal {
        section: 0,
        direction: UP,
    },
    Call::ReturnRelease {
        section: 0,
        direction: UP,
    },
    Call::OpenHome {
        section: 0,
        direction: UP,
    },
    Call::ReachPedal {
        train: 3020,
        section: 0,
    },
    Call::LeaveSection {
        train: 3020,
        section: 0,
    },
    Call::ClearSection {
        section: 0,
        direction: UP,
    },
    Call::ShutHome {
        section: 0,
        direction: UP,
    },
    Call::ClearSection {
        section: 0,
        direction: UP,
    },
    Call::RestoreSection {
        section: 0,
        direction: UP,
    },
    Call::GiveRelease {
        section: 1,
        direction: UP,
    },
    Call::OpenSignal {
        section: 1,
        direction: UP,
    },
    Call::CloseSignal {
        section: 1,
        direction: UP,
    },
    Call::ReturnRelease {
        section: 1,
        direction: UP,
    },
    Call::UnsealSection {
        section: 1,
        direction: UP,
    },
    Call::WithdrawTrain { train: 3020 },
];

// The phase, the train inside or 0, and the tally; where there is no phase, what its refusal has in the place of one.
fn print_section<I: BlockInstrument>(
    rt: &impl Print,
    turn: &Turn<'_, I>,
    section: u32,
) -> io::Result<()> {
    let phase = turn
        .line()
        .phase(section)
        .map_or_else(InstrumentRefusal::phase_code, Phase::code);
    let train = turn.line().train_inside(section).unwrap_or(0);
    let (givings, leavings, unsealings) = tally(turn.register(), section);
    println!(rt; "  s {section} {phase} {train} {givings} {leavings} {unsealings}")
}

fn print_turn<I: BlockInstrument + Drop>(
    rt: &impl Print,
    make: &str,
    instrument: I,
) -> io::Result<()> {
    println!(rt; "{make}")?;
    let mut rows = [BLANK_ROW; 32];
    let mut slips = [BLANK_SEAL; 2];
    let mut turn = Turn::new(instrument, &mut rows, &mut slips);
    let mut told = [Ok(()); CALLS.len()];
    let worked = turn.play(&CALLS, &mut told);
    for (&call, &answer) in CALLS.iter().zip(told.iter()).take(worked) {
        let call = CallText(call);
        let answer = AnswerText(answer);
        println!(rt; "  {call}: {answer}")?;
    }
    for section in 0..turn.line().count() {
        print_section(rt, &turn, section)?;
    }
    Ok(())
}

fn main(rt: HostRuntime) -> io::Result<()> {
    print_turn(&rt, "interlocked", Interlocked::new(2))?;
    print_turn(&rt, "telephone", Telephone::new(2))?;
    print_turn(
        &rt,
        "mixed",
        MixedPile {
            first: Interlocked::new(1),
            second: Telephone::new(1),
        },
    )?;
    print_turn(&rt, "pocket", Pocket::new())
}
