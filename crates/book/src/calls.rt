// The calls that book: each is allowed in stage open.
ghost use Rattle.std.specs.Prelude.{◌≡◌, [], ◌∷◌};
ghost use Rattle.sharing.specs.declared.refusal.Refusal.TheVariants.{WrongStage};
ghost use Rattle.ledger.specs.Checks.{decided};
ghost use Rattle.ledger.specs.Ledger.{struck};
ghost use Rattle.ledger.specs.Bookings.{lists, deals, reprices, booking_checks};
ghost use Rattle.ledger.specs.Calls.{listing, dealing, repricing, open_checks, plain_answer};
ghost use Rattle.ledger.specs.Runs.{Turned};
ghost use Rattle.book.specs.Views.{ledger_of};
ghost use Rattle.book.specs.Booked.{booking_left};

use super::entry::Entry;
use super::state::Book;
use ledger::deal::Deal;
use ledger::fields::Checked;
use ledger::listing::Listing;
use ledger::repricing::Repricing;
use ledger::stage::Stage;
use sharing::refusal::Refusal;

impl Book {
    // Refuses what is not allowed in stage struck.
    pub(crate) fn in_stage_open(&self) -> Result<(), Refusal>
        ensures { result ≡ decided ((struck (ledger_of self.now), WrongStage) ∷ []) tt }
    {
        match self.stage {
            Stage::Open => Ok(()),
            Stage::Struck => Err(Refusal::WrongStage),
        }
    }

    // Enters what has all fields within their limits, in whatever stage the book is.
    fn enter<E: Entry>(&mut self, entry: &E) -> Result<(), Refusal>
        ensures answers { result ≡ decided (booking_checks (ledger_of self.old) (E.booking entry.now)) tt }
        ensures books { ledger_of self.new ≡ booking_left (E.booking entry.now) result (ledger_of self.old) }
    {
        let fields = Checked::new(*entry)?;
        E::enter(&fields, self)
    }

    // Books an entry in stage open. Any run that the book has gone through goes on with the call that books it.
    fn book<E: Entry>(&mut self, entry: &E) -> Result<(), Refusal>
        ensures answers { result ≡ decided (open_checks (ledger_of self.old) (E.booking entry.now)) tt }
        ensures turned { Turned (ledger_of self.old) (E.call entry.now) (plain_answer result) (ledger_of self.new) }
    {
        self.in_stage_open()?;
        self.enter(entry)
    }

    // Lists a series.
    pub fn listing(&mut self, series: Listing) -> Result<(), Refusal>
        ensures answers { result ≡ decided (open_checks (ledger_of self.old) (lists series)) tt }
        ensures turned { Turned (ledger_of self.old) (listing series) (plain_answer result) (ledger_of self.new) }
    {
        self.book(&series)
    }

    // Books a member's deal in a series.
    pub fn deal(&mut self, deal: Deal) -> Result<(), Refusal>
        ensures answers { result ≡ decided (open_checks (ledger_of self.old) (deals deal)) tt }
        ensures turned { Turned (ledger_of self.old) (dealing deal) (plain_answer result) (ledger_of self.new) }
    {
        self.book(&deal)
    }

    // Sets a new clearing price and risk parameter of a series.
    pub fn repricing(&mut self, new: Repricing) -> Result<(), Refusal>
        ensures answers { result ≡ decided (open_checks (ledger_of self.old) (reprices new)) tt }
        ensures turned { Turned (ledger_of self.old) (repricing new) (plain_answer result) (ledger_of self.new) }
    {
        self.book(&new)
    }
}
