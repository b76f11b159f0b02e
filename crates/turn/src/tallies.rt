// The tally of a section.
ghost use Rattle.std.specs.Prelude.{◌≡◌, ◌+◌};
ghost use Rattle.turn.specs.Law.{Account, Awaits};
ghost use Rattle.turn.specs.Rows.{tally};
ghost use Rattle.turn.specs.Turns.{book_of};
ghost use Rattle.turn.specs.declared.rows.Kind.TheVariants.{Giving, Leaving, Unsealing};

use crate::rows::{Kind, RegisterRow};
use book::Book;

// Givings, leavings and unsealings of the section. Where the register is that of a lawful turn, they tell whether a release
// awaits.
pub fn tally(register: &Book<'_, RegisterRow>, section: u32) -> (usize, usize, usize)
    ensures givings { result.0 ≡ tally Giving section (book_of register.now).rows }
    ensures leavings { result.1 ≡ tally Leaving section (book_of register.now).rows }
    ensures unsealings { result.2 ≡ tally Unsealing section (book_of register.now).rows }
    ensures awaiting { Account (book_of register.now).rows section → Awaits (book_of register.now).rows section → result.0 ≡ result.1 + result.2 + 1 }
    ensures settled { Account (book_of register.now).rows section → (Awaits (book_of register.now).rows section → ⊥) → result.0 ≡ result.1 + result.2 }
{
    let mut givings: usize = 0;
    let mut leavings: usize = 0;
    let mut unsealings: usize = 0;
    for row in register.filled() {
        givings += usize::from(row.tells(Kind::Giving, section));
        leavings += usize::from(row.tells(Kind::Leaving, section));
        unsealings += usize::from(row.tells(Kind::Unsealing, section));
    }
    (givings, leavings, unsealings)
}
