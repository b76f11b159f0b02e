// A make of another kind, for trying the line: one section, kept as its phase and nothing else.
#![tactic(auto)]

ghost use Rattle.std.specs.Prelude.{◌≡◌, [], ◌∷◌};
ghost use Rattle.pocket.specs.Single.{single_few};
ghost use Rattle.block.specs.declared.order.Phase.TheVariants.{Rest};

use block::instruments::BlockInstrument;
use block::order::{Action, Direction, Phase};
use block::refusals::{InstrumentRefusal, check_section, work};

#[derive(Clone, Copy)]
pub struct Pocket {
    phase: Phase,
}

impl Pocket {
    pub fn new() -> Pocket
        ensures { result.phase ≡ Rest }
    {
        Pocket { phase: Phase::Rest }
    }
}

#[tactic(auto, unfolding(block::specs::Meaning::phase_answer, block::specs::Meaning::answer, block::specs::Meaning::after))]
impl BlockInstrument for Pocket {
    ghost phases = { λ s. s.phase ∷ [] };

    ghost few = { λ s. single_few s.phase };

    fn count(&self) -> u32 {
        1
    }

    fn phase(&self, section: u32) -> Result<Phase, InstrumentRefusal> {
        check_section(section, self.count(), None)?;
        Ok(self.phase)
    }

    fn operate(
        &mut self,
        action: Action,
        section: u32,
        direction: Direction,
    ) -> Result<(), InstrumentRefusal> {
        check_section(section, self.count(), Some(direction))?;
        self.phase = work(action, section, direction, self.phase)?;
        Ok(())
    }
}
