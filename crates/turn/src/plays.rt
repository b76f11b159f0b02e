// Playing a list of calls.
ghost use Rattle.std.specs.Prelude.{◌≡◌, min, ◌++◌, length, take, drop};
ghost use Rattle.turn.specs.Law.{TurnLaw};
ghost use Rattle.turn.specs.Turn.{run, answers};
ghost use Rattle.turn.specs.Turns.{turn_of, New};

use crate::refusals::TurnRefusal;
use crate::rows::RegisterRow;
use crate::turns::{Turn, work};
use block::instruments::BlockInstrument;
use book::Book;
use line::lines::Line;
use rules::calls::Call;
use rules::slips::SealRow;

// Works the calls one after the other, and answers each: as many as there are calls and places for answers. Of a turn that
// begins new, the law of every turn holds at the end.
pub fn play<I: BlockInstrument>(
    line: &mut Line<I>,
    register: &mut Book<'_, RegisterRow>,
    seals: &mut Book<'_, SealRow>,
    calls: &[Call],
    told: &mut [Result<(), TurnRefusal>],
) -> usize
    ensures count { result ≡ min (length calls.now) (length told.old) }
    ensures played { turn_of line.new register.new seals.new ≡ run (turn_of line.old register.old seals.old) (take result calls.now) }
    ensures answered { told.new ≡ answers (turn_of line.old register.old seals.old) (take result calls.now) ++ drop result told.old }
    ensures lawful { New (turn_of line.old register.old seals.old) → TurnLaw (turn_of line.old register.old seals.old) (take result calls.now) }
{
    let n = calls.len().min(told.len());
    // By their places: of what an iterator over places writes once it is joined with another, a proof knows nothing.
    for i in 0..n {
        told[i] = work(line, register, seals, calls[i]);
    }
    n
}

impl<'a, I: BlockInstrument> Turn<'a, I> {
    // Plays the calls on the turn, as `play` does.
    pub fn play(&mut self, calls: &[Call], told: &mut [Result<(), TurnRefusal>]) -> usize
        ensures count { result ≡ min (length calls.now) (length told.old) }
        ensures played { self.new ≡ run self.old (take result calls.now) }
        ensures answered { told.new ≡ answers self.old (take result calls.now) ++ drop result told.old }
        ensures lawful { New self.old → TurnLaw self.old (take result calls.now) }
    {
        play(
            &mut self.line,
            &mut self.register,
            &mut self.seals,
            calls,
            told,
        )
    }
}
