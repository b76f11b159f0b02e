// What holds of reading, whatever reads.
ghost use Rattle.reading.specs.Headings.{HeadingLaw};
ghost use Rattle.reading.specs.Law.{ReadingLaw};
ghost use Rattle.reading.specs.Lines.{LinesLaw};

// Carries the laws of reading: of calls, of headings, and of the lines of a sheet.
pub fn every_line()
    ensures calls { ReadingLaw }
    ensures headings { HeadingLaw }
    ensures lines { LinesLaw }
{}
