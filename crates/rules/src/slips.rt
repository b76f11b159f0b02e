// The slip that an unsealing hands out, and its row in the seal book.
ghost use Rattle.std.specs.Prelude.{◌≡◌, false, length};
ghost use Rattle.book.specs.Entered.{entered, add_rows};
ghost use Rattle.rules.specs.Slips.{slip_of, seal_row_of, enter_answer};

use crate::calls::Call;
use block::order::Direction;
use book::Book;

// One unsealing: where it was, and the row of the turn register that tells of it, counted from 0.
#[derive(Clone, Copy)]
pub struct SealRow {
    pub section: u32,
    pub direction: Direction,
    pub row: usize,
}

// What fills the slice that is lent to a seal book, before any row is entered.
pub const BLANK_SEAL: SealRow = SealRow {
    section: 0,
    direction: Direction::Up,
    row: 0,
};

// Handed out by the line for an accepted unsealing. It has to be entered: while it is owed it cannot be let go, and `owed` is what
// the contract of its drop asks for.
pub struct Slip {
    section: u32,
    direction: Direction,
    owed: bool,
}

impl Drop for Slip {
    fn drop(self)
        requires { self.owed ≡ false }
    {
        let Slip {
            section: _,
            direction: _,
            owed: _,
        } = self;
    }
}

impl Slip {
    // The slip that an accepted call hands out.
    pub fn of(call: Call) -> Option<Slip>
        ensures { result ≡ slip_of call }
    {
        match call {
            Call::UnsealSection { section, direction } => Some(Slip {
                section,
                direction,
                owed: true,
            }),
            _ => None,
        }
    }

    // Enters the slip into the seal book; a full book gives it back, still owed.
    pub fn enter(mut self, row: usize, seals: &mut Book<'_, SealRow>) -> Result<(), Slip>
        ensures answered { result ≡ enter_answer seals.old.len seals.old.rows.now self }
        ensures rows { entered seals.new.len seals.new.rows.now ≡ add_rows seals.old.len seals.old.rows.now (seal_row_of self row) }
        ensures room { length seals.new.rows.now ≡ length seals.old.rows.now }
    {
        // Field by field: the row has one that the slip has not.
        let entry = SealRow {
            section: self.section,
            direction: self.direction,
            row,
        };
        if seals.add(entry).is_err() {
            return Err(self);
        }
        self.owed = false;
        Ok(())
    }
}
