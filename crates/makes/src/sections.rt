// A make that keeps one record for each section: what it owes of the record, and the instrument that this gives.
ghost use Rattle.std.specs.Prelude.{◌≡◌, ◌≤◌, min, length, replicate};
ghost use Rattle.block.specs.Meaning.{worked, answer_of, phase_after};
ghost use Rattle.block.specs.Order.{brings};
ghost use Rattle.makes.specs.Rows.{row, row_few};
ghost use Rattle.block.specs.declared.order.Phase.{Phase};
ghost use Rattle.block.specs.declared.order.Phase.TheVariants.{Rest};

use block::instruments::BlockInstrument;
pub use block::instruments::MOST_SECTIONS;
use block::order::{Action, Direction, Phase};
use block::refusals::{InstrumentRefusal, check_section, work};

// How a make keeps one section.
pub trait SectionRecord: Copy {
    // the phase that the record stands for
    ghost shows: { Self → Phase };

    fn at_rest() -> Self
        ensures { shows result ≡ Rest };

    fn phase(&self) -> Phase
        ensures shown { result ≡ shows self.now };

    // One action at this section, whose number is only told in a refusal.
    fn work(
        &mut self,
        action: Action,
        section: u32,
        direction: Direction,
    ) -> Result<(), InstrumentRefusal>
        ensures answered { result ≡ answer_of (worked action section direction (shows self.old)) }
        ensures followed { shows self.new ≡ phase_after action section direction (shows self.old) };
}

// How this crate's own makes take a record on by an action that has been accepted. Private to the crate, since it asks for no
// order; a make of another crate writes `work`. It has a `shows` of its own: with `SectionRecord` above it, `work_record` would
// lead back to the `work` that calls it, and the check proves no such circle.
pub(crate) trait Accepts {
    // the phase that the record stands for
    ghost shows: { Self → Phase };

    fn accept(&mut self, action: Action, direction: Direction)
        ensures { shows self.new ≡ brings action direction };
}

// The work of these makes: an action is accepted or refused by the phase that is found, and only an accepted one is written.
pub(crate) fn work_record<R: Accepts>(
    action: Action,
    section: u32,
    direction: Direction,
    found: Phase,
    kept: &mut R,
) -> Result<(), InstrumentRefusal>
    requires { found ≡ R.shows kept.old }
    ensures answered { result ≡ answer_of (worked action section direction (R.shows kept.old)) }
    ensures followed { R.shows kept.new ≡ phase_after action section direction (R.shows kept.old) }
{
    work(action, section, direction, found)?;
    kept.accept(action, direction);
    Ok(())
}

// An instrument of at most sixteen sections, each kept as a record of its make. The records stand in an array with their
// count beside it: a list that grows would take its memory from the heap, and one of fixed room would be filled by a loop. No
// model: the law `few` would have to hold of every list of records, so that the phases would be cut to sixteen once more.
#[derive(Drop)]
pub struct Sections<R> {
    pub(crate) records: [R; MOST_SECTIONS as usize],
    pub(crate) count: u32,
    ghost sized: { length records ≡ 16 },
    ghost few: { count ≤ 16 },
}

// `row` is over a count and a list of records, so that it says something before there is an instrument.
impl<R: SectionRecord> Sections<R> {
    // All sections at rest; a count above sixteen makes sixteen.
    pub fn new(count: u32) -> Self
        ensures { row R.shows result.count result.records ≡ replicate (min count 16) Rest }
    {
        Sections {
            records: [R::at_rest(); MOST_SECTIONS as usize],
            count: count.min(MOST_SECTIONS),
        }
    }
}

#[tactic(auto, unfolding(block::specs::Meaning::phase_answer, block::specs::Meaning::answer, block::specs::Meaning::after))]
impl<R: SectionRecord> BlockInstrument for Sections<R> {
    ghost phases = { λ s. row R.SectionRecord.shows s.count s.records };

    ghost few = { λ s. row_few R.SectionRecord.shows s.count s.records s.few };

    fn count(&self) -> u32 {
        self.count
    }

    fn phase(&self, section: u32) -> Result<Phase, InstrumentRefusal> {
        check_section(section, self.count, None)?;
        Ok(self.records[section as usize].phase())
    }

    fn operate(
        &mut self,
        action: Action,
        section: u32,
        direction: Direction,
    ) -> Result<(), InstrumentRefusal> {
        check_section(section, self.count, Some(direction))?;
        self.records[section as usize].work(action, section, direction)
    }
}
