// Where trains are.
ghost use Rattle.std.specs.Prelude.{◌≡◌, Some};
ghost use Rattle.trains.specs.Trains.{taken, free, is_free, bears, place_in, number_in, departs, runs, presses, stands_at, is_inside, is_pressing};

use block::order::Direction;

#[derive(Clone, Copy, PartialEq, Eq)]
pub enum Place {
    AtPost { post: u32 },
    Running { section: u32, direction: Direction },
    OnPedal { section: u32, direction: Direction },
}

#[derive(Clone, Copy, PartialEq, Eq)]
pub struct Train {
    pub number: u32,
    pub place: Place,
}

// One record of the table, free where it holds no train.
#[derive(Clone, Copy, PartialEq, Eq)]
pub struct TrainRecord {
    pub train: Option<Train>,
}

impl Place {
    // The direction in which a train here enters the section: up from its lower post, down from its upper one.
    pub fn departs(self, section: u32) -> Option<Direction>
        ensures { result ≡ departs section (Some self) }
    {
        match self {
            Place::AtPost { post } if post == section => Some(Direction::Up),
            Place::AtPost { post } if post.checked_sub(1) == Some(section) => Some(Direction::Down),
            _ => None,
        }
    }

    // The direction in which a train here runs in the section, short of its pedal.
    pub fn runs(self, section: u32) -> Option<Direction>
        ensures { result ≡ runs section (Some self) }
    {
        match self {
            Place::Running {
                section: here,
                direction,
            } if here == section => Some(direction),
            _ => None,
        }
    }

    // The direction of a train here that is on the pedal of the section. It differs from `runs` in the case, and one function for both
    // would be longer.
    pub fn presses(self, section: u32) -> Option<Direction>
        ensures { result ≡ presses section (Some self) }
    {
        match self {
            Place::OnPedal {
                section: here,
                direction,
            } if here == section => Some(direction),
            _ => None,
        }
    }

    // The post at which a train here stands.
    pub fn post(self) -> Option<u32>
        ensures { result ≡ stands_at (Some self) }
    {
        match self {
            Place::AtPost { post } => Some(post),
            _ => None,
        }
    }
}

impl TrainRecord {
    // Where the train is that it holds.
    pub fn place(&self) -> Option<Place>
        ensures { result ≡ place_in self.now.train }
    {
        self.train.map(|train| train.place)
    }

    // The number of the train that it holds.
    pub fn number(&self) -> Option<u32>
        ensures { result ≡ number_in self.now.train }
    {
        self.train.map(|train| train.number)
    }

    // Whether it holds no train.
    pub(crate) fn is_free(&self) -> bool
        ensures { result ≡ is_free self.now }
    {
        self.train.is_none()
    }

    // Whether it holds the train of this number.
    pub(crate) fn bears(&self, number: u32) -> bool
        ensures { result ≡ bears number self.now }
    {
        self.number() == Some(number)
    }

    // Whether it holds a train inside the section.
    pub(crate) fn is_inside(&self, section: u32) -> bool
        ensures { result ≡ is_inside section (place_in self.now.train) }
    {
        matches!(
            self.place(),
            Some(Place::Running { section: here, .. } | Place::OnPedal { section: here, .. }) if here == section
        )
    }

    // Whether it holds a train on the pedal of the section, in this direction.
    pub(crate) fn is_pressing(&self, section: u32, direction: Direction) -> bool
        ensures { result ≡ is_pressing section direction (place_in self.now.train) }
    {
        self.place() == Some(Place::OnPedal { section, direction })
    }

    // The record now holds this train, at this place.
    pub fn hold(&mut self, number: u32, place: Place)
        ensures { self.new ≡ taken number place }
    {
        self.train = Some(Train { number, place });
    }

    pub fn clear(&mut self)
        ensures { self.new ≡ free }
    {
        self.train = None;
    }
}
