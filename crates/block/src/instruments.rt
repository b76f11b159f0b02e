// The meaning of a block instrument.
ghost use Rattle.std.specs.Prelude.{◌≡◌, ◌≤◌, List, length};
ghost use Rattle.block.specs.Meaning.{phase_answer, answer, after};
ghost use Rattle.block.specs.Steps.{Step};
ghost use Rattle.block.specs.declared.order.Phase.{Phase};

use crate::order::{Action, Direction, Phase};
use crate::refusals::InstrumentRefusal;

// The most sections that an instrument has; its laws say sixteen.
pub const MOST_SECTIONS: u32 = 16;

// Whatever holds one phase for each of at most sixteen sections, and answers just so.
pub trait BlockInstrument {
    ghost phases: { Self → List Phase };

    // A law of the trait, which each make proves: there are at most sixteen sections.
    ghost few: { (x : Self) → length (phases x) ≤ 16 };

    fn count(&self) -> u32
        ensures { result ≡ length (phases self.now) };

    fn phase(&self, section: u32) -> Result<Phase, InstrumentRefusal>
        ensures { result ≡ phase_answer (phases self.now) section };

    // An action, its section and its direction are three parameters and no struct: whoever calls has the three apart.
    fn operate(
        &mut self,
        action: Action,
        section: u32,
        direction: Direction,
    ) -> Result<(), InstrumentRefusal>
        ensures answered { result ≡ answer (phases self.old) action section direction }
        ensures followed { phases self.new ≡ after (phases self.old) action section direction };
}

// What came of an action that was tried: the answer, and the phase that the section then has.
#[derive(Clone, Copy)]
pub struct Attempt {
    pub answer: Result<(), InstrumentRefusal>,
    pub phase: Result<Phase, InstrumentRefusal>,
}

// Tries an action. Of every make it holds that a refusal leaves every phase, that an accepted action changes one phase
// only, and that the count never changes.
pub fn try_action<I: BlockInstrument>(
    instrument: &mut I,
    action: Action,
    section: u32,
    direction: Direction,
) -> Attempt
    ensures answered { result.answer ≡ answer (I.phases instrument.old) action section direction }
    ensures followed { I.phases instrument.new ≡ after (I.phases instrument.old) action section direction }
    ensures phase { result.phase ≡ phase_answer (I.phases instrument.new) section }
    ensures step { Step (I.phases instrument.old) action section direction }
{
    let answer = instrument.operate(action, section, direction);
    let phase = instrument.phase(section);
    Attempt { answer, phase }
}
