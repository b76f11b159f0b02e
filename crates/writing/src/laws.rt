// What holds of writing, whatever is written.
ghost use Rattle.writing.specs.Law.{WritingLaw};

// Carries the law of writing.
pub fn every_text()
    ensures { WritingLaw }
{}
