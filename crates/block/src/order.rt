// The order of working a section: directions, phases and actions.
ghost use Rattle.std.specs.Prelude.{◌≡◌};
ghost use Rattle.block.specs.Order.{direction_code, phase_code, same_phase, towards, leaves, brings};

// Up is towards the higher post.
#[derive(Clone, Copy, PartialEq, Eq)]
pub enum Direction {
    Up = 0,
    Down = 1,
}

// How far the release of a section has come, and for which direction.
#[derive(Clone, Copy, PartialEq, Eq)]
pub enum Phase {
    Rest,
    Given(Direction),
    Opened(Direction),
    Returned(Direction),
    Cleared(Direction),
}

#[derive(Clone, Copy, PartialEq, Eq)]
pub enum Action {
    Give,
    Open,
    Return,
    Clear,
    Restore,
}

impl Direction {
    // Its number wherever an answer tells it.
    pub fn code(self) -> u8
        ensures { result ≡ direction_code self }
    {
        self as u8
    }
}

impl Phase {
    // Its number wherever an answer tells it.
    pub fn code(self) -> u8
        ensures { result ≡ phase_code self }
    {
        match self {
            Phase::Rest => 0,
            Phase::Given(Direction::Up) => 1,
            Phase::Opened(Direction::Up) => 2,
            Phase::Returned(Direction::Up) => 3,
            Phase::Cleared(Direction::Up) => 4,
            Phase::Given(Direction::Down) => 5,
            Phase::Opened(Direction::Down) => 6,
            Phase::Returned(Direction::Down) => 7,
            Phase::Cleared(Direction::Down) => 8,
        }
    }

    // Whether this is a phase of the direction; rest is of neither.
    pub fn is_towards(self, direction: Direction) -> bool
        ensures { result ≡ towards direction self }
    {
        match self {
            Phase::Rest => false,
            Phase::Given(own) | Phase::Opened(own) | Phase::Returned(own) | Phase::Cleared(own) =>
                own == direction,
        }
    }
}

impl Action {
    // The one phase in which the action is accepted.
    pub fn leaves(self, direction: Direction) -> Phase
        ensures { result ≡ leaves self direction }
    {
        match self {
            Action::Give => Phase::Rest,
            Action::Open => Phase::Given(direction),
            Action::Return => Phase::Opened(direction),
            Action::Clear => Phase::Returned(direction),
            Action::Restore => Phase::Cleared(direction),
        }
    }

    // The phase that the action leads to where it is accepted.
    pub fn brings(self, direction: Direction) -> Phase
        ensures { result ≡ brings self direction }
    {
        match self {
            Action::Give => Phase::Given(direction),
            Action::Open => Phase::Opened(direction),
            Action::Return => Phase::Returned(direction),
            Action::Clear => Phase::Cleared(direction),
            Action::Restore => Phase::Rest,
        }
    }
}
