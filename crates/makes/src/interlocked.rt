// The interlocked make: eight panes and a lever lock for each section.
ghost use Rattle.std.specs.Prelude.{◌≡◌};
ghost use Rattle.makes.specs.Interlocked.{pictured, Stands};
ghost use Rattle.makes.specs.Rows.{row};
ghost use Rattle.makes.specs.Panes.{panes_answer};

use crate::interlocked::record::PaneRecord;
use crate::sections::{Accepts, SectionRecord, Sections, work_record};
use block::order::{Action, Direction, Phase};
use block::refusals::{InstrumentRefusal, check_section};

pub mod record;

pub type Interlocked = Sections<PaneRecord>;

// The panes and the lock of a phase.
impl From<Phase> for PaneRecord {
    ghost from_gives = { λ phase kept. Stands kept phase };

    fn from(phase: Phase) -> PaneRecord {
        let panes = match phase {
            Phase::Rest => 85,
            Phase::Given(Direction::Up) | Phase::Opened(Direction::Up) => 116,
            Phase::Returned(Direction::Up) => 247,
            Phase::Cleared(Direction::Up) => 183,
            Phase::Given(Direction::Down) | Phase::Opened(Direction::Down) => 71,
            Phase::Returned(Direction::Down) => 127,
            Phase::Cleared(Direction::Down) => 123,
        };
        PaneRecord {
            panes,
            lock: matches!(phase, Phase::Opened(_)),
        }
    }
}

impl Sections<PaneRecord> {
    // The panes that a section shows.
    #[tactic(auto, unfolding(block::specs::Meaning::phase_answer))]
    pub fn panes(&self, section: u32) -> Result<u8, InstrumentRefusal>
        ensures { result ≡ panes_answer (row pictured self.now.count self.now.records) section }
    {
        check_section(section, self.count, None)?;
        Ok(self.records[section as usize].panes)
    }
}

impl SectionRecord for PaneRecord {
    ghost shows = { pictured };

    fn at_rest() -> PaneRecord {
        PaneRecord::from(Phase::Rest)
    }

    fn phase(&self) -> Phase
        ensures shown { result ≡ pictured self.now }
        ensures stands { Stands self.now result }
    {
        match (self.panes, self.lock) {
            (85, false) => Phase::Rest,
            (116, false) => Phase::Given(Direction::Up),
            (116, true) => Phase::Opened(Direction::Up),
            (247, false) => Phase::Returned(Direction::Up),
            (183, false) => Phase::Cleared(Direction::Up),
            (71, false) => Phase::Given(Direction::Down),
            (71, true) => Phase::Opened(Direction::Down),
            (127, false) => Phase::Returned(Direction::Down),
            (123, false) => Phase::Cleared(Direction::Down),
            _ => unreachable!(),
        }
    }

    fn work(
        &mut self,
        action: Action,
        section: u32,
        direction: Direction,
    ) -> Result<(), InstrumentRefusal> {
        work_record(action, section, direction, self.phase(), self)
    }
}

impl Accepts for PaneRecord {
    ghost shows = { pictured };

    fn accept(&mut self, action: Action, direction: Direction) {
        *self = PaneRecord::from(action.brings(direction));
    }
}
