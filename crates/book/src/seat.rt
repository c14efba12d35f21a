// Seats by their numbers.
ghost use Rattle.std.specs.Prelude.{◌≡◌, ◌-◌, ◌<◌, [], ◌∷◌};
ghost use Rattle.sharing.specs.declared.refusal.Refusal.TheVariants.{NoSuchSeat};
ghost use Rattle.ledger.specs.Limits.{outside, most_members};
ghost use Rattle.ledger.specs.Checks.{decided};

use super::state::Book;
use sharing::refusal::Refusal;
use std::marker::Model;

// A seat that a book may have, by its number from 1.
#[derive(Clone, Copy, PartialEq, Eq, Debug)]
pub(crate) struct Seat {
    number: u16,
}

impl Model for Seat {
    ghost use Rattle.std.specs.Prelude.{ℕ};
    ghost use Rattle.ledger.specs.Limits.{most_members};
    ghost use Rattle.ledger.specs.History.{Between};

    ghost Value = { ℕ };

    ghost view = { λ s. s.number };

    ghost invariant = { λ s. Between 1 most_members s.number };

    ghost inverse = { λ n. record { number = n } };
}

impl Seat {
    // Its place among the eight seats, from 0.
    pub(crate) fn place(self) -> usize
        ensures from_0 { result ≡ self - 1 }
        ensures within { result < most_members }
    {
        usize::from(self.number) - 1
    }
}

impl Book {
    // The seat of that number, if a member sits there: members have the seats from 1 on.
    pub(crate) fn seat(&self, number: u16) -> Result<Seat, Refusal>
        ensures { result ≡ decided ((outside 1 self.now.members number, NoSuchSeat) ∷ []) number }
    {
        if !(1..=self.members.count()).contains(&usize::from(number)) {
            return Err(Refusal::NoSuchSeat);
        }
        Ok(Seat { number })
    }
}
