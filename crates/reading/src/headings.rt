// The heading of a sheet.
ghost use Rattle.std.specs.Prelude.{◌≡◌};
ghost use Rattle.reading.specs.Headings.{heading, is_good, HeadingAs};

use crate::reader::Reader;
use block::instruments::MOST_SECTIONS;

// How many sections the line has, and how many of them, the first ones, are interlocked; the others are worked by telephone.
#[derive(Clone, Copy)]
pub struct Heading {
    pub sections: u32,
    pub interlocked: u32,
}

impl Heading {
    // Whether a line can be made of it.
    pub fn is_good(&self) -> bool
        ensures { result ≡ is_good self.now }
    {
        (1..=MOST_SECTIONS).contains(&self.sections) && self.interlocked <= self.sections
    }
}

// The heading, where the line is what is written of a good one.
#[tactic(auto, using(crate::proofs::WholeLines::as_heading), unfolding(crate::specs::Headings::heading))]
pub fn read_heading(line: &[u8]) -> Option<Heading>
    ensures value { result ≡ heading line.now }
    ensures lawful { HeadingAs line.now result }
{
    let mut reader = Reader::new(line);
    let (sections, interlocked) = reader.heading()?;
    let heading = Heading {
        sections,
        interlocked,
    };
    (reader.at() == line.len() && heading.is_good()).then_some(heading)
}
