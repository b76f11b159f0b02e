// What a block instrument says where it refuses.
ghost use Rattle.std.specs.Prelude.{◌≡◌};
ghost use Rattle.block.specs.Meaning.{worked};
ghost use Rattle.block.specs.Refusals.{number, section_value, direction_value, phase_value, told_of, retold, section_check, refusal};

use crate::order::{Action, Direction, Phase};

#[derive(Clone, Copy, PartialEq, Eq)]
pub enum InstrumentRefusal {
    // There is no such section. The question for the phase asks for no direction.
    NoSection {
        section: u32,
        asked: Option<Direction>,
    },
    // A release was to be given, and the section is not at rest.
    NotAtRest {
        section: u32,
        direction: Direction,
        found: Phase,
    },
    // The section is at rest, or worked for the other direction.
    OtherDirection {
        section: u32,
        direction: Direction,
        found: Phase,
    },
    // The section is worked for this direction, and in another phase.
    WrongPhase {
        section: u32,
        direction: Direction,
        found: Phase,
    },
}

impl InstrumentRefusal {
    // The number that an answer tells.
    pub fn number(self) -> u16
        ensures { result ≡ number self }
    {
        match self {
            InstrumentRefusal::NoSection { .. } => 301,
            InstrumentRefusal::NotAtRest { .. } => 302,
            InstrumentRefusal::OtherDirection { .. } => 303,
            InstrumentRefusal::WrongPhase { .. } => 304,
        }
    }

    pub fn section(self) -> u32
        ensures { result ≡ section_value self }
    {
        match self {
            InstrumentRefusal::NoSection { section, .. }
            | InstrumentRefusal::NotAtRest { section, .. }
            | InstrumentRefusal::OtherDirection { section, .. }
            | InstrumentRefusal::WrongPhase { section, .. } => section,
        }
    }

    // 0 for up, 1 for down, 2 for the question for the phase.
    pub fn direction_code(self) -> u8
        ensures { result ≡ direction_value self }
    {
        match self {
            InstrumentRefusal::NoSection { asked, .. } => asked.map_or(2, Direction::code),
            InstrumentRefusal::NotAtRest { direction, .. }
            | InstrumentRefusal::OtherDirection { direction, .. }
            | InstrumentRefusal::WrongPhase { direction, .. } => direction.code(),
        }
    }

    // The code of the phase found, 255 where there is no section.
    pub fn phase_code(self) -> u8
        ensures { result ≡ phase_value self }
    {
        match self {
            InstrumentRefusal::NoSection { .. } => 255,
            InstrumentRefusal::NotAtRest { found, .. }
            | InstrumentRefusal::OtherDirection { found, .. }
            | InstrumentRefusal::WrongPhase { found, .. } => found.code(),
        }
    }

    // The same refusal, told of another section number.
    pub fn told_of(mut self, section: u32) -> InstrumentRefusal
        ensures { result ≡ told_of section self }
    {
        // One pattern for all four would do, but the proof loses a write under it.
        match &mut self {
            InstrumentRefusal::NoSection { section: own, .. } => *own = section,
            InstrumentRefusal::NotAtRest { section: own, .. } => *own = section,
            InstrumentRefusal::OtherDirection { section: own, .. } => *own = section,
            InstrumentRefusal::WrongPhase { section: own, .. } => *own = section,
        }
        self
    }
}

// The same answer, its refusal told of another section number.
pub fn retold<T>(answer: Result<T, InstrumentRefusal>, section: u32) -> Result<T, InstrumentRefusal>
    ensures { result ≡ retold section answer }
{
    answer.map_err(|refusal| refusal.told_of(section))
}

// Refuses a section that is not among as many as there are, for whatever direction was asked.
pub fn check_section(
    section: u32,
    count: u32,
    asked: Option<Direction>,
) -> Result<(), InstrumentRefusal>
    ensures { result ≡ section_check section count asked }
{
    if section < count {
        Ok(())
    } else {
        Err(InstrumentRefusal::NoSection { section, asked })
    }
}

// The refusal of an action that is not accepted in the phase found.
fn refused(action: Action, section: u32, direction: Direction, found: Phase) -> InstrumentRefusal
    ensures { result ≡ refusal action section direction found }
{
    match action {
        Action::Give => InstrumentRefusal::NotAtRest {
            section,
            direction,
            found,
        },
        _ if found.is_towards(direction) => InstrumentRefusal::WrongPhase {
            section,
            direction,
            found,
        },
        _ => InstrumentRefusal::OtherDirection {
            section,
            direction,
            found,
        },
    }
}

// One section, found in a phase: the phase that the action leads to, or its refusal. It serves every make.
pub fn work(
    action: Action,
    section: u32,
    direction: Direction,
    found: Phase,
) -> Result<Phase, InstrumentRefusal>
    ensures { result ≡ worked action section direction found }
{
    if found == action.leaves(direction) {
        Ok(action.brings(direction))
    } else {
        Err(refused(action, section, direction, found))
    }
}
