// The fourteen calls, with the letter of each.
ghost use Rattle.std.specs.Prelude.{◌≡◌};
ghost use Rattle.rules.specs.Calls.{train_of, section_of};

use block::order::Direction;

#[derive(Clone, Copy)]
pub enum Call {
    // N
    PlaceTrain { train: u32, post: u32 },
    // W
    WithdrawTrain { train: u32 },
    // G
    GiveRelease { section: u32, direction: Direction },
    // O
    OpenSignal { section: u32, direction: Direction },
    // F
    CloseSignal { section: u32, direction: Direction },
    // E
    EnterSection { train: u32, section: u32 },
    // R
    ReturnRelease { section: u32, direction: Direction },
    // H
    OpenHome { section: u32, direction: Direction },
    // S
    ShutHome { section: u32, direction: Direction },
    // T
    ReachPedal { train: u32, section: u32 },
    // L
    LeaveSection { train: u32, section: u32 },
    // D
    ClearSection { section: u32, direction: Direction },
    // U
    UnsealSection { section: u32, direction: Direction },
    // Z
    RestoreSection { section: u32, direction: Direction },
}

impl Call {
    // The train that the call names.
    pub fn train(self) -> Option<u32>
        ensures { result ≡ train_of self }
    {
        match self {
            Call::PlaceTrain { train, .. } | Call::WithdrawTrain { train } => Some(train),
            Call::EnterSection { train, .. }
            | Call::ReachPedal { train, .. }
            | Call::LeaveSection { train, .. } => Some(train),
            _ => None,
        }
    }

    // The section that the call names.
    pub fn section(self) -> Option<u32>
        ensures { result ≡ section_of self }
    {
        match self {
            Call::PlaceTrain { .. } | Call::WithdrawTrain { .. } => None,
            Call::EnterSection { section, .. }
            | Call::ReachPedal { section, .. }
            | Call::LeaveSection { section, .. } => Some(section),
            Call::GiveRelease { section, .. }
            | Call::OpenSignal { section, .. }
            | Call::CloseSignal { section, .. }
            | Call::ReturnRelease { section, .. }
            | Call::OpenHome { section, .. }
            | Call::ShutHome { section, .. }
            | Call::ClearSection { section, .. }
            | Call::UnsealSection { section, .. }
            | Call::RestoreSection { section, .. } => Some(section),
        }
    }
}
