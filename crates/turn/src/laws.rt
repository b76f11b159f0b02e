// What holds of every turn, whatever plays it.
ghost use Rattle.turn.specs.Law.{Law};
ghost use Rattle.turn.specs.Worked.{WorkedTurn};

// Carries the law of every turn, and a turn that is computed from the same definitions.
pub fn every_turn()
    ensures law { Law }
    ensures worked { WorkedTurn }
{}
