// The fault reader: the picture that a pane byte was most likely meant to be.
ghost use Rattle.std.specs.Prelude.{◌≡◌};
ghost use Rattle.makes.specs.Cases.{WorkedCases};
ghost use Rattle.makes.specs.Faults.{pictures, nearest, nearest_table};

use crate::faults::entries::NEAREST;

pub mod entries;

// The seven pictures, each at the place of its number.
pub fn pictures() -> [u8; 7]
    ensures value { result ≡ pictures }
    ensures cases { WorkedCases }
{
    [85, 116, 247, 183, 71, 127, 123]
}

// The rule of the table, computed once over all of it.
fn table() -> &'static [u8; 256]
    ensures { result.now ≡ nearest_table }
{
    &NEAREST
}

// The number of the picture that differs from these panes in fewer panes than each other picture does, 7 where none does.
pub fn nearest_picture(panes: u8) -> u8
    ensures { result ≡ nearest panes }
{
    table()[panes as usize]
}
