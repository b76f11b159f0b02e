// What may be asked of a line.
ghost use Rattle.std.specs.Prelude.{◌≡◌, ◌≤◌, length};
ghost use Rattle.block.specs.Meaning.{phase_answer};
ghost use Rattle.rules.specs.State.{count, section_at};
ghost use Rattle.trains.specs.Trains.{place_of, number_inside};

use crate::lines::Line;
use block::instruments::BlockInstrument;
use block::order::Phase;
use block::refusals::InstrumentRefusal;
use rules::signals::{IDLE, SectionState};
use trains::places::Place;

impl<I: BlockInstrument> Line<I> {
    // The number of sections, of which no instrument has more than sixteen.
    pub fn count(&self) -> u32
        ensures value { result ≡ count self.now }
        ensures few { result ≤ 16 }
        ensures sized { length self.now.sections ≡ 16 }
        ensures trains_sized { length self.now.trains ≡ 64 }
    {
        self.instrument.count()
    }

    pub fn phase(&self, section: u32) -> Result<Phase, InstrumentRefusal>
        ensures value { result ≡ phase_answer self.now.phases section }
        ensures sized { length self.now.sections ≡ 16 }
        ensures trains_sized { length self.now.trains ≡ 64 }
    {
        self.instrument.phase(section)
    }

    // Signals and pedal mark; a section that there is not is idle.
    pub fn section(&self, section: u32) -> SectionState
        ensures value { result ≡ section_at self.now.sections section }
        ensures sized { length self.now.sections ≡ 16 }
        ensures trains_sized { length self.now.trains ≡ 64 }
    {
        self.sections.get(section as usize).copied().unwrap_or(IDLE)
    }

    // The number of the train inside a section.
    pub fn train_inside(&self, section: u32) -> Option<u32>
        ensures value { result ≡ number_inside section self.now.trains }
        ensures sized { length self.now.sections ≡ 16 }
        ensures trains_sized { length self.now.trains ≡ 64 }
    {
        self.trains.train_inside(section)
    }

    // Where a train is.
    pub fn place_of(&self, train: u32) -> Option<Place>
        ensures value { result ≡ place_of train self.now.trains }
        ensures sized { length self.now.sections ≡ 16 }
        ensures trains_sized { length self.now.trains ≡ 64 }
    {
        self.trains.place_of(train)
    }
}
