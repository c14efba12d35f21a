// What may be entered in a book, by a call or by a record of a day file.
ghost use Rattle.std.specs.Prelude.{◌≡◌, ◌∷◌};
ghost use Rattle.sharing.specs.declared.refusal.Refusal.TheVariants.{FieldOutsideLimits};
ghost use Rattle.ledger.specs.Checks.{decided};
ghost use Rattle.ledger.specs.Ledger.{Ledger};
ghost use Rattle.ledger.specs.Bookings.{Booking, booking_checks};
ghost use Rattle.ledger.specs.Calls.{Call};
ghost use Rattle.book.specs.Views.{ledger_of};
ghost use Rattle.book.specs.Booked.{booking_left, further_checks};
ghost use Rattle.book.specs.Entered.{Books};

use super::state::Book;
use ledger::fields::{Checked, Fields};
use sharing::refusal::Refusal;

pub(crate) trait Entry: Fields + Copy {
    // What it books, and the call that books it.
    ghost booking: { Self → Booking };

    ghost call: { Self → Call };

    // Books it in whatever stage the book is: its fields were found within their limits.
    fn enter(fields: &Checked<Self>, book: &mut Book) -> Result<(), Refusal>
        ensures answers { result ≡ decided (further_checks (ledger_of book.old) (booking fields.now)) tt }
        ensures books { ledger_of book.new ≡ booking_left (booking fields.now) result (ledger_of book.old) };

    // Of all that refuses it, its fields are looked at first.
    ghost fields_first: { (l : Ledger) (x : Self) → booking_checks l (booking x)
        ≡ (Self.Fields.wrong x, FieldOutsideLimits) ∷ further_checks l (booking x) };

    ghost called: { (x : Self) → Books (call x) (booking x) };
}
