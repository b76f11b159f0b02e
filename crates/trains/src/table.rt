// The table of train records.
ghost use Rattle.std.specs.Prelude.{◌≡◌, length, position, replicate};
ghost use Rattle.trains.specs.Trains.{free, taken, is_free, bears, place_of, any, put_first, occupied, pedal_pressed, number_inside};

use crate::places::{Place, TrainRecord};
use block::order::Direction;
use std::marker::Model;

const MOST_TRAINS: usize = 64;

// What a contract sees of the table is its records, in their order. Each public method says that there are 64, since whoever is lent a
// table learns of its invariant by that alone.
#[derive(Clone, Copy)]
pub struct TrainTable {
    records: [TrainRecord; MOST_TRAINS],
}

impl Model for TrainTable {
    ghost use Rattle.std.specs.Prelude.{◌≡◌, List, length};
    ghost use Rattle.trains.specs.declared.places.TrainRecord.{TrainRecord};

    ghost Value = { List TrainRecord };

    ghost view = { λ t. t.records };

    ghost invariant = { λ t. length t.records ≡ 64 };

    ghost inverse = { λ held. record { records = held } };
}

impl TrainTable {
    pub fn new() -> TrainTable
        ensures { result ≡ replicate 64 free }
    {
        TrainTable {
            records: [TrainRecord { train: None }; MOST_TRAINS],
        }
    }

    // Where the train is; nowhere if no record holds it.
    pub fn place_of(&self, number: u32) -> Option<Place>
        ensures value { result ≡ place_of number self.now }
        ensures sized { length self.now ≡ 64 }
    {
        self.records
            .iter()
            .find(|held| held.bears(number))
            .and_then(TrainRecord::place)
    }

    // The number of a train inside the section.
    pub fn train_inside(&self, section: u32) -> Option<u32>
        ensures value { result ≡ number_inside section self.now }
        ensures sized { length self.now ≡ 64 }
    {
        self.records
            .iter()
            .find(|held| held.is_inside(section))
            .and_then(TrainRecord::number)
    }

    pub fn has_room(&self) -> bool
        ensures value { result ≡ any is_free self.now }
        ensures sized { length self.now ≡ 64 }
    {
        self.records.iter().any(TrainRecord::is_free)
    }

    pub fn is_occupied(&self, section: u32) -> bool
        ensures value { result ≡ occupied section self.now }
        ensures sized { length self.now ≡ 64 }
    {
        self.records.iter().any(|held| held.is_inside(section))
    }

    pub fn is_pressed(&self, section: u32, direction: Direction) -> bool
        ensures value { result ≡ pedal_pressed section direction self.now }
        ensures sized { length self.now ≡ 64 }
    {
        self.records
            .iter()
            .any(|held| held.is_pressing(section, direction))
    }

    // Where the train's record is in the table.
    fn record_of(&self, number: u32) -> Option<usize>
        ensures { result ≡ position (bears number) self.now }
    {
        self.records.iter().position(|held| held.bears(number))
    }

    // Where the first free record is.
    fn free_record(&self) -> Option<usize>
        ensures { result ≡ position is_free self.now }
    {
        self.records.iter().position(TrainRecord::is_free)
    }

    // This and the next two find a record and write it: one function for the three would leave each of them these two lines.

    // A free record takes the train; a full table stays as it is.
    #[tactic(auto, using(crate::proofs::Searches::puts))]
    pub fn add(&mut self, number: u32, place: Place)
        ensures value { self.new ≡ put_first is_free (taken number place) self.old }
        ensures sized { length self.new ≡ 64 }
    {
        if let Some(free) = self.free_record() {
            self.records[free].hold(number, place);
        }
    }

    // The train goes to another place; where there is no such train, nothing changes.
    #[tactic(auto, using(crate::proofs::Searches::puts))]
    pub fn move_to(&mut self, number: u32, place: Place)
        ensures value { self.new ≡ put_first (bears number) (taken number place) self.old }
        ensures sized { length self.new ≡ 64 }
    {
        if let Some(i) = self.record_of(number) {
            self.records[i].hold(number, place);
        }
    }

    // The train's record is free again; where there is no such train, nothing changes.
    #[tactic(auto, using(crate::proofs::Searches::puts))]
    pub fn remove(&mut self, number: u32)
        ensures value { self.new ≡ put_first (bears number) free self.old }
        ensures sized { length self.new ≡ 64 }
    {
        if let Some(i) = self.record_of(number) {
            self.records[i].clear();
        }
    }
}
