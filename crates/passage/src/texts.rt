// What is printed, as text.
ghost use Rattle.std.specs.Prelude.{◌≡◌, Some};
ghost use Rattle.passage.specs.Names.{name_of_action, name_of_direction};

use block::order::{Action, Direction, Phase};
use block::refusals::InstrumentRefusal;
use std::fmt;

// The word that is printed for an action.
pub fn action_name(action: Action) -> &'static str
    ensures { result.now ≡ name_of_action action }
{
    match action {
        Action::Give => "give",
        Action::Open => "open",
        Action::Return => "return",
        Action::Clear => "clear",
        Action::Restore => "restore",
    }
}

// The word that is printed for a direction.
pub fn direction_name(direction: Direction) -> &'static str
    ensures { result.now ≡ name_of_direction direction }
{
    match direction {
        Direction::Up => "up",
        Direction::Down => "down",
    }
}

#[derive(Clone, Copy)]
pub struct ActionText(pub Action);

impl fmt::Display for ActionText {
    ghost output = { λ x. Some (name_of_action x.0) };

    fn fmt<W: fmt::Write>(&self, f: &mut fmt::Formatter<W>) -> fmt::Result {
        f.write_str(action_name(self.0))
    }
}

#[derive(Clone, Copy)]
pub struct DirectionText(pub Direction);

impl fmt::Display for DirectionText {
    ghost output = { λ x. Some (name_of_direction x.0) };

    fn fmt<W: fmt::Write>(&self, f: &mut fmt::Formatter<W>) -> fmt::Result {
        f.write_str(direction_name(self.0))
    }
}

// "ok", or "no" with the refusal's number, section, direction and phase found. What shift prints of a refusal is another text.
#[derive(Clone, Copy)]
pub struct AnswerText(pub Result<(), InstrumentRefusal>);

impl fmt::Display for AnswerText {
    fn fmt<W: fmt::Write>(&self, f: &mut fmt::Formatter<W>) -> fmt::Result {
        match self.0 {
            Ok(()) => f.write_str("ok"),
            Err(refusal) => write!(
                f,
                "no {} {} {} {}",
                refusal.number(),
                refusal.section(),
                refusal.direction_code(),
                refusal.phase_code()
            ),
        }
    }
}

// The phase's code, or "none" where there is no such section.
#[derive(Clone, Copy)]
pub struct PhaseText(pub Result<Phase, InstrumentRefusal>);

impl fmt::Display for PhaseText {
    fn fmt<W: fmt::Write>(&self, f: &mut fmt::Formatter<W>) -> fmt::Result {
        match self.0 {
            Ok(phase) => write!(f, "{}", phase.code()),
            Err(_) => f.write_str("none"),
        }
    }
}

// Receiver, transmitter, trigger and control of one post, bits 0 to 3; w or r for each.
#[derive(Clone, Copy)]
struct PostText(u8);

impl fmt::Display for PostText {
    fn fmt<W: fmt::Write>(&self, f: &mut fmt::Formatter<W>) -> fmt::Result {
        for bit in 0..4u32 {
            f.write_char(if self.0 >> bit & 1 == 1 { 'r' } else { 'w' })?;
        }
        Ok(())
    }
}

// The panes of the lower post, a space, those of the upper post. Nothing where there are no panes.
#[derive(Clone, Copy)]
pub struct PaneText(pub Option<u8>);

impl fmt::Display for PaneText {
    fn fmt<W: fmt::Write>(&self, f: &mut fmt::Formatter<W>) -> fmt::Result {
        let Some(panes) = self.0 else {
            return Ok(());
        };
        let lower = PostText(panes & 15);
        let upper = PostText(panes >> 4);
        write!(f, ", {lower} {upper}")
    }
}
