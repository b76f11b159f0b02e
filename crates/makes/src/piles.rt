// The mixed pile: two instruments of any make, joined into one.
ghost use Rattle.makes.specs.Piles.{joined, joined_few};

use block::instruments::{BlockInstrument, MOST_SECTIONS};
use block::order::{Action, Direction, Phase};
use block::refusals::{InstrumentRefusal, check_section, retold};

// The first one's sections come first, then the second one's; only the first sixteen count.
#[derive(Drop)]
pub struct MixedPile<P, Q> {
    pub first: P,
    pub second: Q,
}

impl<P: BlockInstrument, Q: BlockInstrument> BlockInstrument for MixedPile<P, Q> {
    ghost phases = { λ s. joined (P.BlockInstrument.phases s.first) (Q.BlockInstrument.phases s.second) };

    ghost few = { λ s. joined_few (P.BlockInstrument.phases s.first) (Q.BlockInstrument.phases s.second) };

    fn count(&self) -> u32 {
        (self.first.count() + self.second.count()).min(MOST_SECTIONS)
    }

    fn phase(&self, section: u32) -> Result<Phase, InstrumentRefusal> {
        let below = self.first.count();
        if section < below {
            return self.first.phase(section);
        }
        check_section(section, MOST_SECTIONS, None)?;
        retold(self.second.phase(section - below), section)
    }

    fn operate(
        &mut self,
        action: Action,
        section: u32,
        direction: Direction,
    ) -> Result<(), InstrumentRefusal> {
        let below = self.first.count();
        if section < below {
            return self.first.operate(action, section, direction);
        }
        check_section(section, MOST_SECTIONS, Some(direction))?;
        retold(
            self.second.operate(action, section - below, direction),
            section,
        )
    }
}
