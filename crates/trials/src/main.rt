// Tries every action in every phase, at the ends of instruments of every make, and prints the numbers of the answers.
#![tactic(auto)]

use block::instruments::{BlockInstrument, try_action};
use block::order::{Action, Direction, Phase};
use block::refusals::InstrumentRefusal;
use makes::interlocked::Interlocked;
use makes::piles::MixedPile;
use makes::telephone::Telephone;
use std::{fmt, io};

const DIRECTIONS: [Direction; 2] = [Direction::Up, Direction::Down];

// In the order in which a passage has them.
const ACTIONS: [Action; 5] = [
    Action::Give,
    Action::Open,
    Action::Return,
    Action::Clear,
    Action::Restore,
];

// The first so many actions of a passage, from rest.
fn bring<I: BlockInstrument>(instrument: &mut I, section: u32, direction: Direction, steps: usize) {
    for &action in ACTIONS.iter().take(steps) {
        let _ = instrument.operate(action, section, direction);
    }
}

// Back to rest, from any phase: what does not fit is refused.
fn settle<I: BlockInstrument>(instrument: &mut I, section: u32) {
    for direction in DIRECTIONS {
        for &action in ACTIONS.iter().skip(1) {
            let _ = instrument.operate(action, section, direction);
        }
    }
}

// A phase by its code, or the number of the refusal in its place.
#[derive(Clone, Copy)]
struct OutcomeText(Result<Phase, InstrumentRefusal>);

impl fmt::Display for OutcomeText {
    fn fmt<W: fmt::Write>(&self, f: &mut fmt::Formatter<W>) -> fmt::Result {
        match self.0 {
            Ok(phase) => write!(f, "{}", phase.code()),
            Err(refusal) => write!(f, "{}", refusal.number()),
        }
    }
}

// One line: the phase, and for each action and direction the phase that it leads to, or its refusal's number.
fn try_all<I: BlockInstrument>(
    rt: &impl Print,
    instrument: &mut I,
    section: u32,
    direction: Direction,
    steps: usize,
) -> io::Result<()> {
    bring(instrument, section, direction, steps);
    let found = OutcomeText(instrument.phase(section));
    print!(rt; "  section {section} phase {found}:")?;
    settle(instrument, section);
    for action in ACTIONS {
        for towards in DIRECTIONS {
            bring(instrument, section, direction, steps);
            let tried = try_action(instrument, action, section, towards);
            let told = OutcomeText(tried.answer.and(tried.phase));
            print!(rt; " {told}")?;
            settle(instrument, section);
        }
    }
    println!(rt; "")
}

fn trial<I: BlockInstrument>(
    rt: &impl Print,
    make: &str,
    instrument: &mut I,
    sections: &[u32],
) -> io::Result<()> {
    let count = instrument.count();
    println!(rt; "{make}, sections: {count}")?;
    for &section in sections {
        for direction in DIRECTIONS {
            for steps in 0..ACTIONS.len() {
                try_all(rt, instrument, section, direction, steps)?;
            }
        }
    }
    Ok(())
}

fn main(rt: HostRuntime) -> io::Result<()> {
    let mut interlocked = Interlocked::new(99);
    trial(&rt, "interlocked of 99", &mut interlocked, &[0, 15, 16])?;
    let mut telephone = Telephone::new(16);
    trial(&rt, "telephone of 16", &mut telephone, &[0, 15, 16])?;
    let mut mixed = MixedPile {
        first: Interlocked::new(10),
        second: Telephone::new(10),
    };
    trial(&rt, "pile of 10 and 10", &mut mixed, &[0, 9, 10, 15, 16])?;
    let mut piles = MixedPile {
        first: MixedPile {
            first: Telephone::new(1),
            second: Interlocked::new(2),
        },
        second: MixedPile {
            first: Interlocked::new(0),
            second: Telephone::new(1),
        },
    };
    trial(&rt, "pile of piles", &mut piles, &[0, 1, 2, 3, 4])
}
