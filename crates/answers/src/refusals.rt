// What a sheet says where it refuses.
ghost use Rattle.std.specs.Prelude.{◌≡◌};
ghost use Rattle.answers.specs.Numbers.{line_refusal_number, sheet_number};
ghost use Rattle.answers.specs.declared.refusals.SheetLineRefusal.TheVariants.{Turn};
ghost use Rattle.answers.specs.declared.refusals.SheetRefusal.TheVariants.{Line};

use turn::refusals::TurnRefusal;

// Why one line of a sheet is refused.
#[derive(Clone, Copy)]
pub enum SheetLineRefusal {
    // The place of the first byte after which no good line can follow.
    Unreadable { place: usize },
    // The turn's own refusal, whole.
    Turn(TurnRefusal),
}

// A refused line, by its number in the sheet.
#[derive(Clone, Copy)]
pub struct RefusedLine {
    pub line: usize,
    pub refusal: SheetLineRefusal,
}

#[derive(Clone, Copy)]
pub enum SheetRefusal {
    TooLong,
    BadHeading,
    ShortBuffer,
    Line(RefusedLine),
}

impl SheetLineRefusal {
    // The number that an answer tells.
    pub fn number(self) -> u16
        ensures { result ≡ line_refusal_number self }
    {
        match self {
            SheetLineRefusal::Unreadable { .. } => 103,
            SheetLineRefusal::Turn(refusal) => refusal.number(),
        }
    }
}

impl SheetRefusal {
    // The number that an answer tells.
    pub fn number(self) -> u16
        ensures { result ≡ sheet_number self }
    {
        match self {
            SheetRefusal::TooLong => 101,
            SheetRefusal::BadHeading => 102,
            SheetRefusal::ShortBuffer => 106,
            SheetRefusal::Line(refused) => refused.refusal.number(),
        }
    }
}

// Written out and not derived, as the next: a derive would not promise which case it makes.
impl From<TurnRefusal> for SheetLineRefusal {
    ghost from_gives = { λ e r. r ≡ Turn e };

    fn from(e: TurnRefusal) -> SheetLineRefusal {
        SheetLineRefusal::Turn(e)
    }
}

impl From<RefusedLine> for SheetRefusal {
    ghost from_gives = { λ e r. r ≡ Line e };

    fn from(e: RefusedLine) -> SheetRefusal {
        SheetRefusal::Line(e)
    }
}
