// Listings, deals and repricings as a book takes them. The stage and the fields are looked at before.
ghost use Rattle.std.specs.Prelude.{◌≡◌};
ghost use Rattle.std.proofs.Common.{rules};
ghost use Rattle.ledger.specs.Checks.{decided};
ghost use Rattle.ledger.specs.Bookings.{lists, deals, reprices};
ghost use Rattle.ledger.specs.Calls.{listing, dealing, repricing};
ghost use Rattle.book.specs.Views.{row_from, ledger_of};
ghost use Rattle.book.specs.Booked.{push_checks, push_left};

use super::entry::Entry;
use super::state::{Book, Series};
use ledger::deal::Deal;
use ledger::fields::Checked;
use ledger::limits::series_full;
use ledger::listing::Listing;
use ledger::repricing::Repricing;
use sharing::refusal::Refusal;

impl Book {
    // Puts a series after the last, unless the book takes no more.
    fn push(&mut self, series: Series) -> Result<(), Refusal>
        ensures answers { result ≡ decided (push_checks (ledger_of self.old)) tt }
        ensures pushes { ledger_of self.new ≡ push_left (row_from series) result (ledger_of self.old) }
    {
        if series_full(self.count) {
            return Err(Refusal::BookFull);
        }
        self.series[self.count] = series;
        self.count += 1;
        Ok(())
    }
}

// A series is listed once, and a book holds at most 48.
impl Entry for Listing {
    ghost booking = { lists };

    ghost call = { listing };

    ghost called = { Prim.search rules };

    ghost fields_first = { Prim.search rules };

    fn enter(fields: &Checked<Self>, book: &mut Book) -> Result<(), Refusal> {
        if book.find(fields.code).is_some() {
            return Err(Refusal::ListedAlready);
        }
        let series = Series::listed(fields);
        book.push(series)
    }
}

// A deal moves the position of its seat in its series.
impl Entry for Deal {
    ghost booking = { deals };

    ghost call = { dealing };

    ghost called = { Prim.search rules };

    ghost fields_first = { Prim.search rules };

    fn enter(fields: &Checked<Self>, book: &mut Book) -> Result<(), Refusal> {
        let Deal { code, seat, .. } = **fields;
        let seat = book.seat(seat)?;
        let Some(place) = book.find(code) else {
            return Err(Refusal::NotListed);
        };
        // The array is lent first: an element lent straight out of a book gets no proof.
        let series = &mut book.series;
        series[place].deal(seat, fields)
    }
}

// A repricing puts another price and risk parameter in force; positions stay.
impl Entry for Repricing {
    ghost booking = { reprices };

    ghost call = { repricing };

    ghost called = { Prim.search rules };

    ghost fields_first = { Prim.search rules };

    fn enter(fields: &Checked<Self>, book: &mut Book) -> Result<(), Refusal> {
        let Some(place) = book.find(fields.code) else {
            return Err(Refusal::NotListed);
        };
        // The array is lent first, as for a deal.
        let series = &mut book.series;
        series[place].reprice(fields);
        Ok(())
    }
}
