// One section's telephone record.
ghost use Rattle.std.specs.Prelude.{T};
ghost use Rattle.makes.specs.Letters.{lawful};

use crate::telephone::letters::Letter;
use block::order::Direction;

// The last letter, the direction that it was for, and whether the signal was opened under a grant: what is written down at
// the telephone, so the mark is a field of its own. Only lawful records can be had: a request and an announced entry are
// answered in the same action, so neither is ever the last letter; only a grant has the mark; and before the first letter
// the direction is up.
#[derive(Clone, Copy)]
pub struct LetterRecord {
    pub(crate) letter: Option<Letter>,
    pub(crate) direction: Direction,
    pub(crate) opened: bool,
    ghost lawful: { T (lawful letter direction opened) },
}
