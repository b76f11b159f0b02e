// Calls and answers as they are printed.
use block::order::Direction;
use rules::calls::Call;
use rules::refusals::LineRefusal;
use std::fmt;
use turn::refusals::TurnRefusal;

// A call by its letter and its fields.
#[derive(Clone, Copy)]
pub struct CallText(pub Call);

// The letter of a call that names a section and a direction, with these.
fn sectioned<W: fmt::Write>(
    f: &mut fmt::Formatter<W>,
    letter: char,
    section: u32,
    direction: Direction,
) -> fmt::Result {
    let direction = match direction {
        Direction::Up => 'u',
        Direction::Down => 'd',
    };
    write!(f, "{letter} {section} {direction}")
}

impl fmt::Display for CallText {
    fn fmt<W: fmt::Write>(&self, f: &mut fmt::Formatter<W>) -> fmt::Result {
        match self.0 {
            Call::PlaceTrain { train, post } => write!(f, "N {train} {post}"),
            Call::WithdrawTrain { train } => write!(f, "W {train}"),
            Call::EnterSection { train, section } => write!(f, "E {train} {section}"),
            Call::ReachPedal { train, section } => write!(f, "T {train} {section}"),
            Call::LeaveSection { train, section } => write!(f, "L {train} {section}"),
            Call::GiveRelease { section, direction } => sectioned(f, 'G', section, direction),
            Call::OpenSignal { section, direction } => sectioned(f, 'O', section, direction),
            Call::CloseSignal { section, direction } => sectioned(f, 'F', section, direction),
            Call::ReturnRelease { section, direction } => sectioned(f, 'R', section, direction),
            Call::OpenHome { section, direction } => sectioned(f, 'H', section, direction),
            Call::ShutHome { section, direction } => sectioned(f, 'S', section, direction),
            Call::ClearSection { section, direction } => sectioned(f, 'D', section, direction),
            Call::UnsealSection { section, direction } => sectioned(f, 'U', section, direction),
            Call::RestoreSection { section, direction } => sectioned(f, 'Z', section, direction),
        }
    }
}

// "ok", or "no" with the number; an instrument's refusal has its section and the phase found too. It is not the text of the
// program passage, which has no turn and tells the direction as well.
#[derive(Clone, Copy)]
pub struct AnswerText(pub Result<(), TurnRefusal>);

impl fmt::Display for AnswerText {
    fn fmt<W: fmt::Write>(&self, f: &mut fmt::Formatter<W>) -> fmt::Result {
        match self.0 {
            Ok(()) => f.write_str("ok"),
            Err(TurnRefusal::Line(LineRefusal::Instrument(refusal))) => write!(
                f,
                "no {} {} {}",
                refusal.number(),
                refusal.section(),
                refusal.phase_code()
            ),
            Err(refusal) => write!(f, "no {}", refusal.number()),
        }
    }
}
