// The telephone make: the last letter, a direction and an opened mark for each section.
ghost use Rattle.std.specs.Prelude.{◌≡◌, Some};
ghost use Rattle.makes.specs.Letters.{last_letter, marked};
ghost use Rattle.block.specs.Order.{brings};
ghost use Rattle.makes.specs.Telephone.{understood};

use crate::sections::{Accepts, SectionRecord, Sections, work_record};
use crate::telephone::letters::Letter;
use crate::telephone::record::LetterRecord;
use block::order::{Action, Direction, Phase};
use block::refusals::InstrumentRefusal;

pub mod letters;
pub mod record;

pub type Telephone = Sections<LetterRecord>;

impl LetterRecord {
    // The record once an action has been accepted.
    fn after(action: Action, direction: Direction) -> LetterRecord
        ensures letter { result.letter ≡ Some (last_letter action) }
        ensures direction { result.direction ≡ direction }
        ensures opened { result.opened ≡ marked action }
        ensures phase { understood result ≡ brings action direction }
    {
        let letter = match action {
            Action::Give | Action::Open => Letter::Grant,
            Action::Return => Letter::EntryConfirmed,
            Action::Clear => Letter::Exit,
            Action::Restore => Letter::ExitConfirmed,
        };
        LetterRecord {
            letter: Some(letter),
            direction,
            opened: matches!(action, Action::Open),
        }
    }
}

impl SectionRecord for LetterRecord {
    ghost shows = { understood };

    fn at_rest() -> LetterRecord {
        LetterRecord {
            letter: None,
            direction: Direction::Up,
            opened: false,
        }
    }

    fn phase(&self) -> Phase {
        match (self.letter, self.opened) {
            (None | Some(Letter::ExitConfirmed), _) => Phase::Rest,
            (Some(Letter::Grant), false) => Phase::Given(self.direction),
            (Some(Letter::Grant), true) => Phase::Opened(self.direction),
            (Some(Letter::EntryConfirmed), _) => Phase::Returned(self.direction),
            (Some(Letter::Exit), _) => Phase::Cleared(self.direction),
            (Some(Letter::Request | Letter::Entry), _) => unreachable!(),
        }
    }

    fn work(
        &mut self,
        action: Action,
        section: u32,
        direction: Direction,
    ) -> Result<(), InstrumentRefusal> {
        work_record(action, section, direction, self.phase(), self)
    }
}

impl Accepts for LetterRecord {
    ghost shows = { understood };

    fn accept(&mut self, action: Action, direction: Direction) {
        *self = LetterRecord::after(action, direction);
    }
}
