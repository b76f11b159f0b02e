// The line, over any block instrument.
use block::instruments::{BlockInstrument, MOST_SECTIONS};
use rules::signals::{Condition, SectionState};
use std::marker::Model;
use trains::table::TrainTable;

mod examining;
mod facts;
mod making;
mod reading;
mod working;

// What a contract sees of a line is its state, in which the instrument stands by its sections' phases. What is read of a line says how
// many sections and train records it has, since whoever is lent one learns of its invariant by that alone.
#[derive(Drop)]
pub struct Line<I: BlockInstrument> {
    instrument: I,
    condition: Condition,
    sections: [SectionState; MOST_SECTIONS as usize],
    trains: TrainTable,
}

impl<I: BlockInstrument> Model for Line<I> {
    ghost use Rattle.std.specs.Prelude.{◌≡◌, length};
    ghost use Rattle.rules.specs.State.{LineState};

    ghost Value = { LineState };

    ghost view = { λ l. record { condition = l.condition; phases = I.BlockInstrument.phases l.instrument; sections = l.sections; trains = l.trains } };

    ghost invariant = { λ l. (length l.sections ≡ 16) × (length l.trains ≡ 64) };
}
