// A new book, its opening, and its two stages.
ghost use Rattle.std.specs.Prelude.{◌≡◌, []};
ghost use Rattle.ledger.specs.Checks.{decided};
ghost use Rattle.ledger.specs.Ledger.{opened};
ghost use Rattle.ledger.specs.Calls.{opening, opening_checks, event_call, event_checks, plain_answer};
ghost use Rattle.ledger.specs.Runs.{Ran, Turned};
ghost use Rattle.book.specs.Views.{ledger_of};

use super::members::Members;
use super::state::{Book, Position, Series};
use ledger::limits::{MOST_SERIES, SEATS};
use ledger::market::Market;
use ledger::stage::{Event, Stage};
use sharing::refusal::Refusal;

impl Series {
    // What stands where no series is listed.
    fn unlisted() -> Self {
        Series {
            code: 1,
            market: Market::Electricity,
            size: 1,
            price: 1,
            risk: 1,
            positions: [Position::flat(); SEATS],
        }
    }
}

impl Book {
    // An empty book in stage open.
    fn empty(members: Members) -> Self
        ensures { ledger_of result ≡ opened members }
    {
        Book {
            stage: Stage::Open,
            members,
            count: 0,
            series: [Series::unlisted(); MOST_SERIES],
        }
    }

    // A book that was never opened: it counts as just opened with one member.
    pub fn new() -> Self
        ensures { Ran [] (ledger_of result) }
    {
        Book::empty(Members::one())
    }

    // Opens the book for so many members, in whatever stage it is. It drops all that was listed and booked.
    pub fn opening(&mut self, members: u16) -> Result<(), Refusal>
        ensures answers { result ≡ decided (opening_checks members) tt }
        ensures turned { Turned (ledger_of self.old) (opening members) (plain_answer result) (ledger_of self.new) }
    {
        *self = Book::empty(Members::new(members)?);
        Ok(())
    }

    // Strikes an open book, or opens a struck one again. Positions are kept.
    pub fn turn(&mut self, event: Event) -> Result<(), Refusal>
        ensures answers { result ≡ decided (event_checks (ledger_of self.old) event) tt }
        ensures turned { Turned (ledger_of self.old) (event_call event) (plain_answer result) (ledger_of self.new) }
    {
        match (self.stage, event) {
            (Stage::Open, Event::Strike) => {
                self.stage = Stage::Struck;
                Ok(())
            }
            (Stage::Struck, Event::Reopening) => {
                self.stage = Stage::Open;
                Ok(())
            }
            _ => Err(Refusal::WrongStage),
        }
    }
}
