// One call of a turn: the books' room, the line, and then the rows. The line and the two books are lent, so that nobody has to own them
// to have a call worked; `Turn` is for whoever wants them as one value.
ghost use Rattle.std.specs.Prelude.{◌≡◌, true, false, [], ◌∷◌, length, is_some};
ghost use Rattle.turn.specs.Turn.{full, added, answer_of, turn_answer, step};
ghost use Rattle.turn.specs.Turns.{book_of, turn_of, begun, admission, slip_rows};

use crate::refusals::TurnRefusal;
use crate::rows::RegisterRow;
use block::instruments::BlockInstrument;
use book::Book;
use line::lines::Line;
use rules::calls::Call;
use rules::slips::{SealRow, Slip};
use std::marker::Model;

// Whether the books have room: the register for every call, the seal book for an unsealing.
fn admit(
    register: &Book<'_, RegisterRow>,
    seals: &Book<'_, SealRow>,
    call: Call,
) -> Result<(), TurnRefusal>
    ensures { result ≡ answer_of (admission (book_of register.now) (book_of seals.now) call) }
{
    if register.is_full() {
        return Err(TurnRefusal::RegisterFull);
    }
    match call {
        Call::UnsealSection { .. } if seals.is_full() => Err(TurnRefusal::SealBookFull),
        _ => Ok(()),
    }
}

// Enters the row of an accepted call, and its slip.
fn note(
    register: &mut Book<'_, RegisterRow>,
    seals: &mut Book<'_, SealRow>,
    row: RegisterRow,
    slip: Option<Slip>,
)
    requires room { full (book_of register.old) ≡ false }
    requires seal_room { is_some slip ≡ true → full (book_of seals.old) ≡ false }
    ensures rows { book_of register.new ≡ added (row ∷ []) (book_of register.old) }
    ensures seals { book_of seals.new ≡ added (slip_rows slip (length (book_of register.old).rows)) (book_of seals.old) }
{
    let place = register.len();
    let _ = register.add(row);
    if let Some(slip) = slip {
        match slip.enter(place, seals) {
            Ok(()) => {}
            Err(_owed) => unreachable!(),
        }
    }
}

// Works one call of the turn that a line and two books make up. A refused call changes nothing; an unsealing enters its slip before
// the call ends.
pub fn work<I: BlockInstrument>(
    line: &mut Line<I>,
    register: &mut Book<'_, RegisterRow>,
    seals: &mut Book<'_, SealRow>,
    call: Call,
) -> Result<(), TurnRefusal>
    ensures answered { result ≡ turn_answer (turn_of line.old register.old seals.old) call }
    ensures followed { turn_of line.new register.new seals.new ≡ step (turn_of line.old register.old seals.old) call }
{
    admit(register, seals, call)?;
    let row = RegisterRow::of(line, call);
    let slip = line.call(call)?;
    note(register, seals, row, slip);
    Ok(())
}

// The register has a row for each accepted call, the seal book one for each unsealing.
#[derive(Drop)]
pub struct Turn<'a, I: BlockInstrument> {
    pub(crate) line: Line<I>,
    pub(crate) register: Book<'a, RegisterRow>,
    pub(crate) seals: Book<'a, SealRow>,
}

impl<'a, I: BlockInstrument> Model for Turn<'a, I> {
    ghost use Rattle.turn.specs.Turn.{TurnState};
    ghost use Rattle.turn.specs.Turns.{book_of};

    ghost Value = { TurnState };

    ghost view = { λ t. record { line = t.line; register = book_of t.register; seals = book_of t.seals } };
}

impl<'a, I: BlockInstrument> Turn<'a, I> {
    // A turn that begins: a new line over an instrument, and two empty books over lent slices.
    pub fn new(instrument: I, rows: &'a mut [RegisterRow], slips: &'a mut [SealRow]) -> Turn<'a, I>
        ensures { result ≡ begun (I.phases instrument) (length rows.old) (length slips.old) }
    {
        Turn::over(Line::new(instrument), Book::new(rows), Book::new(slips))
    }

    // A turn over a line and two books, as they stand.
    pub fn over(
        line: Line<I>,
        register: Book<'a, RegisterRow>,
        seals: Book<'a, SealRow>,
    ) -> Turn<'a, I>
        ensures { result ≡ record { line = line; register = book_of register.entry; seals = book_of seals.entry } }
    {
        Turn {
            line,
            register,
            seals,
        }
    }

    pub fn line(&self) -> &Line<I>
        ensures { result.now ≡ self.now.line }
    {
        &self.line
    }

    pub fn register(&self) -> &Book<'a, RegisterRow>
        ensures { book_of result.now ≡ self.now.register }
    {
        &self.register
    }

    pub fn seals(&self) -> &Book<'a, SealRow>
        ensures { book_of result.now ≡ self.now.seals }
    {
        &self.seals
    }

    // The line and the two books, as they stand, for whoever wants them back.
    pub fn into_parts(self) -> (Line<I>, Book<'a, RegisterRow>, Book<'a, SealRow>)
        ensures { turn_of result.0 result.1 result.2 ≡ self.entry }
    {
        (self.line, self.register, self.seals)
    }

    // Works one call of the turn, as `work` does.
    pub fn work(&mut self, call: Call) -> Result<(), TurnRefusal>
        ensures answered { result ≡ turn_answer self.old call }
        ensures followed { self.new ≡ step self.old call }
    {
        work(&mut self.line, &mut self.register, &mut self.seals, call)
    }
}
