// The letters of the telephone block.
#[derive(Clone, Copy)]
pub enum Letter {
    // A: a release is asked for.
    Request,
    // B: the release is granted.
    Grant,
    // C: the train's entry is announced.
    Entry,
    // Cz: the entry is confirmed.
    EntryConfirmed,
    // D: the train's exit is announced.
    Exit,
    // Dz: the exit is confirmed.
    ExitConfirmed,
}
