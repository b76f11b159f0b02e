// The line's own checks of a call, in their order.
ghost use Rattle.std.specs.Prelude.{◌≡◌, [], ◌∷◌, Option};
ghost use Rattle.rules.specs.Checks.{told, refused_if, first_refusal, section_unknown, post_unknown, train_present, table_full, train_absent, train_unknown, home_open, home_shut, elsewhere};
ghost use Rattle.rules.specs.State.{signals, section_at};
ghost use Rattle.line.specs.Working.{way_told, own_answer};
ghost use Rattle.rules.specs.declared.calls.Call.TheVariants.{PlaceTrain, WithdrawTrain, GiveRelease, CloseSignal, EnterSection, ReturnRelease, OpenHome, ShutHome, ReachPedal, LeaveSection, ClearSection, UnsealSection};

use crate::lines::Line;
use block::instruments::BlockInstrument;
use block::order::Direction;
use rules::calls::Call;
use rules::refusals::LineRefusal;
use rules::signals::Signals;

const LAST_TRAIN: u32 = 99_999;

// One check: its refusal where the ground for it holds.
fn refuse_if(ground: bool, refusal: LineRefusal) -> Result<(), LineRefusal>
    ensures { result ≡ told (refused_if ground refusal) }
{
    if ground { Err(refusal) } else { Ok(()) }
}

fn check_train(train: u32) -> Result<(), LineRefusal>
    ensures { result ≡ told (train_unknown train) }
{
    refuse_if(
        !(1..=LAST_TRAIN).contains(&train),
        LineRefusal::TrainUnknown,
    )
}

impl<I: BlockInstrument> Line<I> {
    fn check_section(&self, section: u32) -> Result<(), LineRefusal>
        ensures { result ≡ told (section_unknown self.now section) }
    {
        refuse_if(
            section >= self.instrument.count(),
            LineRefusal::SectionUnknown,
        )
    }

    fn check_post(&self, post: u32) -> Result<(), LineRefusal>
        ensures { result ≡ told (post_unknown self.now post) }
    {
        refuse_if(post > self.instrument.count(), LineRefusal::PostUnknown)
    }

    // This check and the next are opposites, as are the two of a home signal, and those of a closing and a returning: with a flag for
    // which of the two is meant, a call of it could not be read.
    fn check_new(&self, train: u32) -> Result<(), LineRefusal>
        ensures { result ≡ told (train_present self.now train) }
    {
        refuse_if(
            self.trains.place_of(train).is_some(),
            LineRefusal::TrainPresent,
        )
    }

    fn check_present(&self, train: u32) -> Result<(), LineRefusal>
        ensures { result ≡ told (train_absent self.now train) }
    {
        refuse_if(
            self.trains.place_of(train).is_none(),
            LineRefusal::TrainAbsent,
        )
    }

    fn check_room(&self) -> Result<(), LineRefusal>
        ensures { result ≡ told (table_full self.now) }
    {
        refuse_if(!self.trains.has_room(), LineRefusal::TableFull)
    }

    fn signals(&self, section: u32, direction: Direction) -> Signals
        ensures { result ≡ signals direction (section_at self.now.sections section) }
    {
        self.section(section).signals(direction)
    }

    fn check_home_shut(&self, section: u32, direction: Direction) -> Result<(), LineRefusal>
        ensures { result ≡ told (home_open self.now section direction) }
    {
        let home = self.signals(section, direction).home;
        refuse_if(home.is_open(), LineRefusal::HomeSignalWrong)
    }

    fn check_home_open(&self, section: u32, direction: Direction) -> Result<(), LineRefusal>
        ensures { result ≡ told (home_shut self.now section direction) }
    {
        let home = self.signals(section, direction).home;
        refuse_if(!home.is_open(), LineRefusal::HomeSignalWrong)
    }
}

impl<I: BlockInstrument> Line<I> {
    fn may_place(&self, train: u32, post: u32) -> Result<(), LineRefusal>
        ensures { result ≡ own_answer self.now (PlaceTrain train post) }
    {
        check_train(train)?;
        self.check_post(post)?;
        self.check_new(train)?;
        self.check_room()
    }

    fn may_withdraw(&self, train: u32) -> Result<(), LineRefusal>
        ensures { result ≡ own_answer self.now (WithdrawTrain train) }
    {
        check_train(train)?;
        self.check_present(train)?;
        refuse_if(self.post_of(train).is_none(), LineRefusal::TrainElsewhere)
    }

    fn may_close(&self, section: u32, direction: Direction) -> Result<(), LineRefusal>
        ensures { result ≡ own_answer self.now (CloseSignal section direction) }
    {
        self.check_section(section)?;
        let block = self.signals(section, direction).block;
        refuse_if(block.is_closed(), LineRefusal::BlockSignalWrong)
    }

    fn may_return(&self, section: u32, direction: Direction) -> Result<(), LineRefusal>
        ensures { result ≡ own_answer self.now (ReturnRelease section direction) }
    {
        self.check_section(section)?;
        let block = self.signals(section, direction).block;
        refuse_if(!block.is_closed(), LineRefusal::BlockSignalWrong)
    }

    // A home signal is opened, and a section restored, under a shut home signal.
    fn may_open_home(&self, section: u32, direction: Direction) -> Result<(), LineRefusal>
        ensures { result ≡ own_answer self.now (OpenHome section direction) }
    {
        self.check_section(section)?;
        self.check_home_shut(section, direction)
    }

    fn may_shut_home(&self, section: u32, direction: Direction) -> Result<(), LineRefusal>
        ensures { result ≡ own_answer self.now (ShutHome section direction) }
    {
        self.check_section(section)?;
        self.check_home_open(section, direction)?;
        refuse_if(
            self.trains.is_pressed(section, direction),
            LineRefusal::PedalWrong,
        )
    }

    fn may_clear(&self, section: u32, direction: Direction) -> Result<(), LineRefusal>
        ensures { result ≡ own_answer self.now (ClearSection section direction) }
    {
        self.check_section(section)?;
        self.check_home_shut(section, direction)?;
        refuse_if(!self.section(section).pedal, LineRefusal::PedalWrong)
    }

    fn may_unseal(&self, section: u32, direction: Direction) -> Result<(), LineRefusal>
        ensures { result ≡ own_answer self.now (UnsealSection section direction) }
    {
        self.check_section(section)?;
        self.check_home_shut(section, direction)?;
        refuse_if(
            self.trains.is_occupied(section),
            LineRefusal::SectionOccupied,
        )?;
        refuse_if(self.section(section).pedal, LineRefusal::PedalWrong)
    }

    // The checks of a train's own calls, but for the signal that it passes: the direction in which it goes.
    fn way_of(
        &self,
        train: u32,
        section: u32,
        way: Option<Direction>,
    ) -> Result<Direction, LineRefusal>
        ensures { result ≡ way_told (first_refusal (train_unknown train ∷ section_unknown self.now section ∷ train_absent self.now train ∷ [])) way }
    {
        check_train(train)?;
        self.check_section(section)?;
        self.check_present(train)?;
        way.ok_or(LineRefusal::TrainElsewhere)
    }

    fn may_enter(&self, train: u32, section: u32) -> Result<(), LineRefusal>
        ensures { result ≡ own_answer self.now (EnterSection train section) }
    {
        let way = self.direction_of(Call::EnterSection { train, section });
        let direction = self.way_of(train, section, way)?;
        let block = self.signals(section, direction).block;
        refuse_if(!block.is_open(), LineRefusal::BlockSignalWrong)
    }

    fn may_reach(&self, train: u32, section: u32) -> Result<(), LineRefusal>
        ensures { result ≡ own_answer self.now (ReachPedal train section) }
    {
        let way = self.direction_of(Call::ReachPedal { train, section });
        let direction = self.way_of(train, section, way)?;
        self.check_home_open(section, direction)
    }

    fn may_leave(&self, train: u32, section: u32) -> Result<(), LineRefusal>
        ensures { result ≡ own_answer self.now (LeaveSection train section) }
    {
        let way = self.direction_of(Call::LeaveSection { train, section });
        self.way_of(train, section, way)?;
        Ok(())
    }

    // The line's own checks. A give and an open are the instrument's to refuse.
    pub(super) fn examine(&self, call: Call) -> Result<(), LineRefusal>
        ensures { result ≡ own_answer self.now call }
    {
        match call {
            Call::PlaceTrain { train, post } => self.may_place(train, post),
            Call::WithdrawTrain { train } => self.may_withdraw(train),
            Call::GiveRelease { section, .. } | Call::OpenSignal { section, .. } =>
                self.check_section(section),
            Call::CloseSignal { section, direction } => self.may_close(section, direction),
            Call::EnterSection { train, section } => self.may_enter(train, section),
            Call::ReturnRelease { section, direction } => self.may_return(section, direction),
            Call::OpenHome { section, direction } | Call::RestoreSection { section, direction } =>
                self.may_open_home(section, direction),
            Call::ShutHome { section, direction } => self.may_shut_home(section, direction),
            Call::ReachPedal { train, section } => self.may_reach(train, section),
            Call::LeaveSection { train, section } => self.may_leave(train, section),
            Call::ClearSection { section, direction } => self.may_clear(section, direction),
            Call::UnsealSection { section, direction } => self.may_unseal(section, direction),
        }
    }
}
