// How a call is worked: its checks, what it asks of the instrument, and what it does besides.
ghost use Rattle.std.specs.Prelude.{◌≡◌, ◌<◌, length};
ghost use Rattle.rules.specs.Calls.{section_of, action_of};
ghost use Rattle.rules.specs.Effects.{section_effect, trains_effect, sections_effect};
ghost use Rattle.line.specs.Lines.{line_answer, line_after};
ghost use Rattle.line.specs.Working.{ask_answer, ask_after, Within};
ghost use Rattle.trains.specs.Trains.{exit_post};

use crate::lines::Line;
use block::instruments::{BlockInstrument, MOST_SECTIONS};
use block::order::{Action, Direction};
use rules::calls::Call;
use rules::refusals::LineRefusal;
use rules::signals::{BlockSignal, HomeSignal, SectionState};
use rules::slips::Slip;
use trains::places::Place;
use trains::table::TrainTable;

// The post that a train leaves the section for.
fn exit_post(section: u32, direction: Direction) -> u32
    requires { section < 16 }
    ensures { result ≡ exit_post section direction }
{
    match direction {
        Direction::Up => section + 1,
        Direction::Down => section,
    }
}

// A section as the call leaves it. The call and its way, which is worked out once, go on as two, as a section and its direction do:
// joined they would be taken apart at once.
fn changed(state: SectionState, call: Call, way: Option<Direction>) -> SectionState
    ensures { result ≡ section_effect call way state }
{
    match (call, way) {
        (Call::OpenSignal { direction, .. }, _) => state.with_block(direction, BlockSignal::Open),
        (Call::CloseSignal { direction, .. }, _) => state.with_block(
            direction,
            BlockSignal::Closed,
        ),
        (Call::EnterSection { .. }, Some(direction)) => state.with_block(
            direction,
            BlockSignal::Fallen,
        ),
        (Call::OpenHome { direction, .. }, _) => state.with_home(direction, HomeSignal::Open),
        (Call::ShutHome { direction, .. }, _) => state.with_home(direction, HomeSignal::Shut),
        (Call::LeaveSection { .. }, _) => state.with_pedal(true),
        (Call::RestoreSection { .. }, _) => state.with_pedal(false),
        _ => state,
    }
}

// The action that a call asks of the instrument.
fn action_of(call: Call) -> Option<Action>
    ensures { result ≡ action_of call }
{
    match call {
        Call::GiveRelease { .. } => Some(Action::Give),
        Call::OpenSignal { .. } => Some(Action::Open),
        Call::ReturnRelease { .. } => Some(Action::Return),
        Call::ClearSection { .. } | Call::UnsealSection { .. } => Some(Action::Clear),
        Call::RestoreSection { .. } => Some(Action::Restore),
        _ => None,
    }
}

// What the call does to its section. This is lent the sections alone, and the next the trains, so that neither can ask the instrument
// for anything, not even for what it would refuse.
fn apply_to_section(
    sections: &mut [SectionState; MOST_SECTIONS as usize],
    call: Call,
    way: Option<Direction>,
)
    requires { Within (section_of call) }
    ensures { sections.new ≡ sections_effect (section_of call) (section_effect call way) sections.old }
{
    let Some(section) = call.section() else {
        return;
    };
    let state = changed(sections[section as usize], call, way);
    sections[section as usize] = state;
}

// What the call does to the trains.
fn apply_to_trains(trains: &mut TrainTable, call: Call, way: Option<Direction>)
    requires within { Within (section_of call) }
    requires sized { length trains.old ≡ 64 }
    ensures value { trains.new ≡ trains_effect call way trains.old }
    ensures sized { length trains.new ≡ 64 }
{
    match (call, way) {
        (Call::PlaceTrain { train, post }, _) => trains.add(train, Place::AtPost { post }),
        (Call::WithdrawTrain { train }, _) => trains.remove(train),
        (Call::EnterSection { train, section }, Some(direction)) => {
            trains.move_to(train, Place::Running { section, direction })
        }
        (Call::ReachPedal { train, section }, Some(direction)) => {
            trains.move_to(train, Place::OnPedal { section, direction })
        }
        (Call::LeaveSection { train, section }, Some(direction)) => {
            trains.move_to(
                train,
                Place::AtPost {
                    post: exit_post(section, direction),
                },
            )
        }
        _ => {}
    }
}

impl<I: BlockInstrument> Line<I> {
    // What the call asks of the instrument, whose refusal is carried whole in the line's.
    fn ask(&mut self, call: Call, way: Option<Direction>) -> Result<(), LineRefusal>
        ensures answered { result ≡ ask_answer call way self.old }
        ensures followed { self.new ≡ ask_after call way self.old }
    {
        if let (Some(action), Some(section), Some(direction)) = (
            action_of(call),
            call.section(),
            way,
        ) {
            self.instrument.operate(action, section, direction)?;
        }
        Ok(())
    }

    // Works a call: its checks in their order, the instrument last of them, and then its effect.
    pub fn call(&mut self, call: Call) -> Result<Option<Slip>, LineRefusal>
        ensures answered { result ≡ line_answer self.old call }
        ensures followed { self.new ≡ line_after self.old call }
    {
        self.condition.check()?;
        self.examine(call)?;
        let way = self.direction_of(call);
        self.ask(call, way)?;
        apply_to_section(&mut self.sections, call, way);
        apply_to_trains(&mut self.trains, call, way);
        Ok(Slip::of(call))
    }
}
