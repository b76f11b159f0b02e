// How a line begins.
ghost use Rattle.std.specs.Prelude.{◌≡◌};
ghost use Rattle.line.specs.Lines.{made, at_rest};

use crate::lines::Line;
use block::instruments::{BlockInstrument, MOST_SECTIONS};
use block::order::Phase;
use rules::signals::{Condition, IDLE};
use trains::table::TrainTable;

// Whether every section is at rest.
fn is_at_rest<I: BlockInstrument>(instrument: &I) -> bool
    ensures { result ≡ at_rest (I.phases instrument.now) }
{
    (0..instrument.count()).all(|section| instrument.phase(section) == Ok(Phase::Rest))
}

impl<I: BlockInstrument> Line<I> {
    // All signals closed or shut, no pedal mark, no train.
    pub fn new(instrument: I) -> Line<I>
        ensures { result ≡ made (I.phases instrument) }
    {
        let condition = if instrument.count() == 0 {
            Condition::Sectionless
        } else if is_at_rest(&instrument) {
            Condition::Sound
        } else {
            Condition::Unsettled
        };
        Line {
            instrument,
            condition,
            sections: [IDLE; MOST_SECTIONS as usize],
            trains: TrainTable::new(),
        }
    }
}
