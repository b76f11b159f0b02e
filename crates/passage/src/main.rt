// Works a passage up and one down through each section of an interlocked, a telephone and a mixed instrument, and prints
// what came of each action.
#![tactic(auto)]

ghost use Rattle.std.specs.Prelude.{◌≡◌};
ghost use Rattle.passage.specs.Names.{opposite_of};

use crate::texts::{ActionText, AnswerText, DirectionText, PaneText, PhaseText};
use crate::views::PaneView;
use block::instruments::try_action;
use block::order::{Action, Direction};
use makes::interlocked::Interlocked;
use makes::piles::MixedPile;
use makes::telephone::Telephone;
use std::io;

mod texts;
mod views;

fn opposite(direction: Direction) -> Direction
    ensures { result ≡ opposite_of direction }
{
    match direction {
        Direction::Up => Direction::Down,
        Direction::Down => Direction::Up,
    }
}

// Tries one action, and prints what was asked, the answer, the phase and the panes.
fn step<I: PaneView>(
    rt: &impl Print,
    instrument: &mut I,
    action: Action,
    section: u32,
    direction: Direction,
) -> io::Result<()> {
    let tried = try_action(instrument, action, section, direction);
    let panes = PaneText(instrument.view(section));
    let answer = AnswerText(tried.answer);
    let phase = PhaseText(tried.phase);
    let action = ActionText(action);
    let direction = DirectionText(direction);
    println!(rt; "  {action} {section} {direction}: {answer}, phase {phase}{panes}")
}

// A whole passage. While the train is in the section, a release is tried against it, and the lever a second time.
fn passage<I: PaneView>(
    rt: &impl Print,
    instrument: &mut I,
    section: u32,
    direction: Direction,
) -> io::Result<()> {
    let against = opposite(direction);
    let actions = [
        (Action::Give, direction),
        (Action::Open, direction),
        (Action::Give, against),
        (Action::Open, direction),
        (Action::Return, direction),
        (Action::Clear, direction),
        (Action::Restore, direction),
    ];
    for (action, towards) in actions {
        step(rt, instrument, action, section, towards)?;
    }
    Ok(())
}

// A passage each way through every section, and an action at the section after the last one.
fn passages<I: PaneView>(rt: &impl Print, make: &str, instrument: &mut I) -> io::Result<()> {
    let count = instrument.count();
    println!(rt; "{make}, sections: {count}")?;
    for section in 0..count {
        for direction in [Direction::Up, Direction::Down] {
            passage(rt, instrument, section, direction)?;
        }
    }
    step(rt, instrument, Action::Give, count, Direction::Up)
}

fn main(rt: HostRuntime) -> io::Result<()> {
    let mut interlocked = Interlocked::new(1);
    passages(&rt, "interlocked", &mut interlocked)?;
    let mut telephone = Telephone::new(1);
    passages(&rt, "telephone", &mut telephone)?;
    let mut mixed = MixedPile {
        first: Interlocked::new(1),
        second: Telephone::new(1),
    };
    passages(&rt, "mixed", &mut mixed)
}
