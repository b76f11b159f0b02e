// The rows of the turn register.
ghost use Rattle.std.specs.Prelude.{◌≡◌};
ghost use Rattle.turn.specs.Rows.{kind_code, kind_of, row_of, tells};

use block::instruments::BlockInstrument;
use block::order::Direction;
use line::lines::Line;
use rules::calls::Call;

// What a row of the turn register tells of, one kind for each call, by the number of the call.
#[derive(Clone, Copy, PartialEq, Eq)]
pub enum Kind {
    Placing = 1,
    Withdrawal = 2,
    Giving = 3,
    Opening = 4,
    Closing = 5,
    Entry = 6,
    Returning = 7,
    HomeOpening = 8,
    HomeShutting = 9,
    PedalReached = 10,
    Leaving = 11,
    Clearing = 12,
    Unsealing = 13,
    Restoring = 14,
}

#[derive(Clone, Copy)]
pub struct RegisterRow {
    pub kind: Kind,
    pub train: Option<u32>,
    pub section: Option<u32>,
    pub direction: Option<Direction>,
    pub post: Option<u32>,
}

// What fills the slice that is lent to a register, before any row is entered.
pub const BLANK_ROW: RegisterRow = RegisterRow {
    kind: Kind::Placing,
    train: None,
    section: None,
    direction: None,
    post: None,
};

impl Kind {
    // The number of the call, 1 to 14: a row's first value, and what the definitions compare by.
    pub fn code(self) -> u8
        ensures { result ≡ kind_code self }
    {
        self as u8
    }
}

impl From<Call> for Kind {
    ghost from_gives = { λ call kind. kind ≡ kind_of call };

    fn from(call: Call) -> Kind {
        match call {
            Call::PlaceTrain { .. } => Kind::Placing,
            Call::WithdrawTrain { .. } => Kind::Withdrawal,
            Call::GiveRelease { .. } => Kind::Giving,
            Call::OpenSignal { .. } => Kind::Opening,
            Call::CloseSignal { .. } => Kind::Closing,
            Call::EnterSection { .. } => Kind::Entry,
            Call::ReturnRelease { .. } => Kind::Returning,
            Call::OpenHome { .. } => Kind::HomeOpening,
            Call::ShutHome { .. } => Kind::HomeShutting,
            Call::ReachPedal { .. } => Kind::PedalReached,
            Call::LeaveSection { .. } => Kind::Leaving,
            Call::ClearSection { .. } => Kind::Clearing,
            Call::UnsealSection { .. } => Kind::Unsealing,
            Call::RestoreSection { .. } => Kind::Restoring,
        }
    }
}

impl RegisterRow {
    // The row of an accepted call, on the line as it stands before the call.
    pub fn of<I: BlockInstrument>(line: &Line<I>, call: Call) -> RegisterRow
        ensures { result ≡ row_of line.now call }
    {
        RegisterRow {
            kind: Kind::from(call),
            train: call.train(),
            section: call.section(),
            direction: line.direction_of(call),
            post: line.post_of_call(call),
        }
    }

    // Whether the row tells of this kind of call in the section.
    pub fn tells(&self, kind: Kind, section: u32) -> bool
        ensures { result ≡ tells kind section self.now }
    {
        self.kind == kind && self.section == Some(section)
    }
}
