// What a section has besides its phase: signals and a pedal mark.
ghost use Rattle.std.specs.Prelude.{◌≡◌};
ghost use Rattle.rules.specs.State.{signals, is_closed, is_open, home_is_open, with_signals, with_block, with_home, with_pedal};

use block::order::Direction;

// Fallen: a train has dropped the arm, and the lever is still pulled.
#[derive(Clone, Copy)]
pub enum BlockSignal {
    Closed,
    Open,
    Fallen,
}

#[derive(Clone, Copy)]
pub enum HomeSignal {
    Shut,
    Open,
}

// The two signals of one direction: the block signal lets a train into the section, the home signal out of it.
#[derive(Clone, Copy)]
pub struct Signals {
    pub block: BlockSignal,
    pub home: HomeSignal,
}

// The pedal mark is set once a train has cleared the insulated rail at the section's exit. It tells of the pedal, and not whether
// another field counts.
#[derive(Clone, Copy)]
pub struct SectionState {
    pub up: Signals,
    pub down: Signals,
    pub pedal: bool,
}

// Whether the line can be worked: it was made over some section, and over an instrument at rest. A state that the line keeps, and
// not the answer to a call, which `check` makes of it.
#[derive(Clone, Copy)]
pub enum Condition {
    Sound,
    Sectionless,
    Unsettled,
}

// Signals at danger.
pub const DANGER: Signals = Signals {
    block: BlockSignal::Closed,
    home: HomeSignal::Shut,
};

// At danger both ways, and no pedal mark.
pub const IDLE: SectionState = SectionState {
    up: DANGER,
    down: DANGER,
    pedal: false,
};

impl BlockSignal {
    pub fn is_closed(self) -> bool
        ensures { result ≡ is_closed self }
    {
        matches!(self, BlockSignal::Closed)
    }

    pub fn is_open(self) -> bool
        ensures { result ≡ is_open self }
    {
        matches!(self, BlockSignal::Open)
    }
}

impl HomeSignal {
    pub fn is_open(self) -> bool
        ensures { result ≡ home_is_open self }
    {
        matches!(self, HomeSignal::Open)
    }
}

impl SectionState {
    pub fn signals(self, direction: Direction) -> Signals
        ensures { result ≡ signals direction self }
    {
        match direction {
            Direction::Up => self.up,
            Direction::Down => self.down,
        }
    }

    pub fn with_signals(self, direction: Direction, signals: Signals) -> SectionState
        ensures { result ≡ with_signals direction signals self }
    {
        match direction {
            Direction::Up => SectionState {
                up: signals,
                ..self
            },
            Direction::Down => SectionState {
                down: signals,
                ..self
            },
        }
    }

    // This and the next differ in the field that they change, and have one line in common.
    pub fn with_block(self, direction: Direction, block: BlockSignal) -> SectionState
        ensures { result ≡ with_block direction block self }
    {
        let signals = self.signals(direction);
        self.with_signals(direction, Signals { block, ..signals })
    }

    pub fn with_home(self, direction: Direction, home: HomeSignal) -> SectionState
        ensures { result ≡ with_home direction home self }
    {
        let signals = self.signals(direction);
        self.with_signals(direction, Signals { home, ..signals })
    }

    pub fn with_pedal(self, pedal: bool) -> SectionState
        ensures { result ≡ with_pedal pedal self }
    {
        SectionState { pedal, ..self }
    }
}
