// What the line says where it refuses.
ghost use Rattle.std.specs.Prelude.{◌≡◌};
ghost use Rattle.rules.specs.Checks.{unfit, told};
ghost use Rattle.rules.specs.Numbers.{line_number};
ghost use Rattle.rules.specs.declared.refusals.LineRefusal.TheVariants.{Instrument};

use crate::signals::Condition;
use block::refusals::InstrumentRefusal;

#[derive(Clone, Copy)]
pub enum LineRefusal {
    // The instrument has no section.
    NoSectionAtAll,
    // The instrument was not at rest when the line was made.
    MadeUnsettled,
    SectionUnknown,
    PostUnknown,
    TrainUnknown,
    TrainPresent,
    TableFull,
    TrainAbsent,
    TrainElsewhere,
    BlockSignalWrong,
    HomeSignalWrong,
    PedalWrong,
    // A train is inside the section.
    SectionOccupied,
    // The instrument's own refusal, whole.
    Instrument(InstrumentRefusal),
}

impl LineRefusal {
    // The number that an answer tells.
    pub fn number(self) -> u16
        ensures { result ≡ line_number self }
    {
        match self {
            LineRefusal::NoSectionAtAll => 201,
            LineRefusal::MadeUnsettled => 202,
            LineRefusal::SectionUnknown => 203,
            LineRefusal::PostUnknown => 204,
            LineRefusal::TrainUnknown => 205,
            LineRefusal::TrainPresent => 206,
            LineRefusal::TableFull => 207,
            LineRefusal::TrainAbsent => 208,
            LineRefusal::TrainElsewhere => 209,
            LineRefusal::BlockSignalWrong => 210,
            LineRefusal::HomeSignalWrong => 211,
            LineRefusal::PedalWrong => 212,
            LineRefusal::SectionOccupied => 213,
            LineRefusal::Instrument(refusal) => refusal.number(),
        }
    }
}

// Written out and not derived: a derive would not promise which case it makes.
impl From<InstrumentRefusal> for LineRefusal {
    ghost from_gives = { λ e r. r ≡ Instrument e };

    fn from(e: InstrumentRefusal) -> LineRefusal {
        LineRefusal::Instrument(e)
    }
}

impl Condition {
    // A line that is not sound works no call.
    pub fn check(self) -> Result<(), LineRefusal>
        ensures { result ≡ told (unfit self) }
    {
        match self {
            Condition::Sound => Ok(()),
            Condition::Sectionless => Err(LineRefusal::NoSectionAtAll),
            Condition::Unsettled => Err(LineRefusal::MadeUnsettled),
        }
    }
}
