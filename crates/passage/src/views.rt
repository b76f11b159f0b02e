// The panes of a section, where it has panes.
ghost use Rattle.std.specs.Prelude.{◌≡◌, ℕ, ◌-◌, length, if◌then◌else◌, None, Option, nat_lt};
ghost use Rattle.std.specs.Result.{result_ok};
ghost use Rattle.makes.specs.Interlocked.{pictured};
ghost use Rattle.makes.specs.Panes.{panes_answer};
ghost use Rattle.makes.specs.Rows.{row};

use block::instruments::BlockInstrument;
use makes::interlocked::record::PaneRecord;
use makes::piles::MixedPile;
use makes::sections::Sections;
use makes::telephone::record::LetterRecord;

// An instrument that tells the panes of those sections that have some.
pub trait PaneView: BlockInstrument {
    ghost view: { Self → ℕ → Option ℕ };

    fn view(&self, section: u32) -> Option<u8>
        ensures { result ≡ view self.now section };
}

impl PaneView for Sections<PaneRecord> {
    ghost view = { λ s k. result_ok (panes_answer (row pictured s.count s.records) k) };

    fn view(&self, section: u32) -> Option<u8> {
        self.panes(section).ok()
    }
}

impl PaneView for Sections<LetterRecord> {
    ghost view = { λ _ _. None };

    fn view(&self, _section: u32) -> Option<u8> {
        None
    }
}

impl<P: PaneView, Q: PaneView> PaneView for MixedPile<P, Q> {
    ghost view = { λ s k. (if nat_lt k (length (P.BlockInstrument.phases s.first)) then P.PaneView.view s.first k else Q.PaneView.view s.second (k - length (P.BlockInstrument.phases s.first))) };

    fn view(&self, section: u32) -> Option<u8> {
        let below = self.first.count();
        if section < below {
            self.first.view(section)
        } else {
            self.second.view(section - below)
        }
    }
}
