// What a turn says where it refuses.
ghost use Rattle.std.specs.Prelude.{◌≡◌};
ghost use Rattle.turn.specs.Numbers.{turn_number};
ghost use Rattle.turn.specs.declared.refusals.TurnRefusal.TheVariants.{Line};

use rules::refusals::LineRefusal;

#[derive(Clone, Copy)]
pub enum TurnRefusal {
    RegisterFull,
    SealBookFull,
    // The line's own refusal, whole.
    Line(LineRefusal),
}

impl TurnRefusal {
    // The number that an answer tells.
    pub fn number(self) -> u16
        ensures { result ≡ turn_number self }
    {
        match self {
            TurnRefusal::RegisterFull => 104,
            TurnRefusal::SealBookFull => 105,
            TurnRefusal::Line(refusal) => refusal.number(),
        }
    }
}

// Written out and not derived: a derive would not promise which case it makes.
impl From<LineRefusal> for TurnRefusal {
    ghost from_gives = { λ e r. r ≡ Line e };

    fn from(e: LineRefusal) -> TurnRefusal {
        TurnRefusal::Line(e)
    }
}
