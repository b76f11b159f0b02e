// A book: rows of any type, entered one after the other into a lent slice.
#![tactic(auto)]

ghost use Rattle.std.specs.Prelude.{◌≡◌, ℕ, ◌<◌, ◌≤◌, [], ◌∷◌, ◌++◌, length, drop, Ok, Err};
ghost use Rattle.std.specs.Option.{option_map};
ghost use Rattle.std.specs.List.{slice_get};
ghost use Rattle.book.specs.Entered.{entered, unused, full, add_answer, add_rows};

// The rows entered so far are the first `len` of the slice. Memory is fixed and nothing is on the heap, so the rows are lent and
// not owned. No model: it would hide from the lender what the slice holds once the book is gone.
#[derive(Drop)]
pub struct Book<'a, R> {
    rows: &'a mut [R],
    len: usize,
    ghost within: { len ≤ length rows.now },
}

// The clauses are over the length and the slice, as the definitions are, which say something before there is a book.
impl<'a, R> Book<'a, R> {
    // An empty book over a lent slice, with room for as many rows. What the book does to its rows is seen in the slice: the two
    // have one name.
    pub fn new(rows: &'a mut [R]) -> Book<'a, R>
        ensures empty { result.len ≡ 0 }
        ensures lent { result.rows.now ≡ rows.old }
        ensures lender { result.rows.ghost_name ≡ rows.entry.ghost_name }
    {
        Book { rows, len: 0 }
    }

    // How many rows it has room for.
    pub fn room(&self) -> usize
        ensures { result ≡ length self.now.rows.now }
    {
        self.rows.len()
    }

    // How many rows are entered.
    pub fn len(&self) -> usize
        ensures { result ≡ length (entered self.now.len self.now.rows.now) }
    {
        self.len
    }

    pub fn is_full(&self) -> bool
        ensures { result ≡ full self.now.len self.now.rows.now }
    {
        self.room() == self.len
    }

    // The rows entered, in order.
    pub fn filled(&self) -> &[R]
        ensures { result.now ≡ entered self.now.len self.now.rows.now }
    {
        &self.rows[..self.len]
    }

    // The row at a place, counted from 0.
    pub fn row(&self, place: usize) -> Option<&R>
        ensures { option_map (λ x. x.now) result ≡ slice_get (entered self.now.len self.now.rows.now) place }
    {
        self.filled().get(place)
    }

    // Enters a row; a full book gives it back, and is as it was.
    pub fn add(&mut self, row: R) -> Result<(), R>
    where
        R: Drop,
        ensures answered { result ≡ add_answer self.old.len self.old.rows.now row }
        ensures rows { entered self.new.len self.new.rows.now ≡ add_rows self.old.len self.old.rows.now row }
        ensures room { length self.new.rows.now ≡ length self.old.rows.now }
        ensures rest { unused self.new.len self.new.rows.now ≡ drop 1 (unused self.old.len self.old.rows.now) }
        ensures lender { self.new.rows.ghost_name ≡ self.old.rows.ghost_name }
    {
        if self.is_full() {
            return Err(row);
        }
        self.rows[self.len] = row;
        self.len += 1;
        Ok(())
    }
}
