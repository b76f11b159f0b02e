// What the line knows of a call besides what it names.
ghost use Rattle.std.specs.Prelude.{◌≡◌, length};
ghost use Rattle.rules.specs.Calls.{direction_of, post_of};
ghost use Rattle.trains.specs.Trains.{place_of, stands_at};

use crate::lines::Line;
use block::instruments::BlockInstrument;
use block::order::Direction;
use rules::calls::Call;

impl<I: BlockInstrument> Line<I> {
    // The post at which a train stands.
    pub fn post_of(&self, train: u32) -> Option<u32>
        ensures value { result ≡ stands_at (place_of train self.now.trains) }
        ensures sized { length self.now.sections ≡ 16 }
        ensures trains_sized { length self.now.trains ≡ 64 }
    {
        self.trains.place_of(train)?.post()
    }

    // The direction of a call: its own, or that in which its train can do what the call says.
    pub fn direction_of(&self, call: Call) -> Option<Direction>
        ensures { result ≡ direction_of self.now call }
    {
        match call {
            Call::PlaceTrain { .. } | Call::WithdrawTrain { .. } => None,
            Call::EnterSection { train, section } => self.trains.place_of(train)?.departs(section),
            Call::ReachPedal { train, section } => self.trains.place_of(train)?.runs(section),
            Call::LeaveSection { train, section } => self.trains.place_of(train)?.presses(section),
            Call::GiveRelease { direction, .. }
            | Call::OpenSignal { direction, .. }
            | Call::CloseSignal { direction, .. }
            | Call::ReturnRelease { direction, .. }
            | Call::OpenHome { direction, .. }
            | Call::ShutHome { direction, .. }
            | Call::ClearSection { direction, .. }
            | Call::UnsealSection { direction, .. }
            | Call::RestoreSection { direction, .. } => Some(direction),
        }
    }

    // The post of a call: the one that it names, or the one at which its train stands.
    pub fn post_of_call(&self, call: Call) -> Option<u32>
        ensures { result ≡ post_of self.now call }
    {
        match call {
            Call::PlaceTrain { post, .. } => Some(post),
            Call::WithdrawTrain { train } => self.post_of(train),
            _ => None,
        }
    }
}
