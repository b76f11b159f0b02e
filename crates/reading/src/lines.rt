// The lines of a sheet, one after the other.
ghost use Rattle.std.specs.Prelude.{◌≡◌, length};
ghost use Rattle.std.specs.Iterator.{YieldsFirstRef, item_count};
ghost use Rattle.reading.specs.Lines.{lines, line_length};

// How many bytes the first line has, its line feed among them.
fn line_length(bytes: &[u8]) -> usize
    ensures { result ≡ line_length bytes.now }
{
    match bytes.iter().position(|byte| *byte == b'\n') {
        Some(feed) => feed + 1,
        None => bytes.len(),
    }
}

// What is still to be read of a sheet.
#[derive(Drop)]
pub struct Lines<'a> {
    rest: &'a [u8],
}

impl<'a> Lines<'a> {
    pub fn new(sheet: &'a [u8]) -> Lines<'a>
        ensures { result.rest.now ≡ sheet.now }
    {
        Lines { rest: sheet }
    }

    // The bytes that are still to be read.
    pub fn rest(&self) -> &'a [u8]
        ensures { result.now ≡ self.now.rest.now }
    {
        self.rest
    }
}

// Each line with the line feed that ends it.
impl<'a> Iterator for Lines<'a> {
    type Item = &'a [u8];

    ghost next_gives = { YieldsFirstRef (λ s. lines s.rest.now) };

    ghost remaining = { item_count (λ s. lines s.rest.now) };

    #[tactic(auto, using(crate::proofs::Cutting::split, crate::proofs::Cutting::within))]
    fn next(&mut self) -> Option<&'a [u8]> {
        if self.rest.is_empty() {
            return None;
        }
        let (line, rest) = self.rest.split_at(line_length(self.rest));
        self.rest = rest;
        Some(line)
    }
}

// How many lines a sheet has.
#[tactic(auto, using(crate::proofs::Cutting::few_lines))]
pub fn count_lines(sheet: &[u8]) -> usize
    ensures { result ≡ length (lines sheet.now) }
{
    Lines::new(sheet).count()
}
