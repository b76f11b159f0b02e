// One section's panes and lever lock: a byte and a flag, as the box shows them.
ghost use Rattle.std.specs.Prelude.{T};
ghost use Rattle.makes.specs.Panes.{lawful};

// Bits 0 to 3 of the panes are the receiver, transmitter, trigger and control of the lower post, bits 4 to 7 those of the
// upper post; a set bit is red. Only the nine lawful pairs can be had.
#[derive(Clone, Copy)]
pub struct PaneRecord {
    pub(crate) panes: u8,
    pub(crate) lock: bool,
    ghost lawful: { T (lawful panes lock) },
}
