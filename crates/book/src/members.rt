// How many members a group has.
ghost use Rattle.std.specs.Prelude.{◌≡◌, ◌≤◌, [], ◌∷◌};
ghost use Rattle.sharing.specs.declared.refusal.Refusal.TheVariants.{MemberCount};
ghost use Rattle.ledger.specs.Limits.{outside, most_members};
ghost use Rattle.ledger.specs.Checks.{decided};

use ledger::limits::members_outside;
use sharing::refusal::Refusal;
use std::marker::Model;

// The number of members of a group, who have the seats from 1 on. It has the range of a seat's number and is another thing,
// so the two are types of their own.
#[derive(Clone, Copy, PartialEq, Eq, Debug)]
pub(crate) struct Members {
    number: u16,
}

impl Model for Members {
    ghost use Rattle.std.specs.Prelude.{ℕ};
    ghost use Rattle.ledger.specs.Limits.{most_members};
    ghost use Rattle.ledger.specs.History.{Between};

    ghost Value = { ℕ };

    ghost view = { λ m. m.number };

    ghost invariant = { λ m. Between 1 most_members m.number };

    ghost inverse = { λ n. record { number = n } };
}

impl Members {
    pub(crate) fn new(number: u16) -> Result<Self, Refusal>
        ensures { result ≡ decided ((outside 1 most_members number, MemberCount) ∷ []) number }
    {
        if members_outside(number) {
            return Err(Refusal::MemberCount);
        }
        Ok(Members { number })
    }

    // A single member.
    pub(crate) fn one() -> Self
        ensures { result ≡ 1 }
    {
        Members { number: 1 }
    }

    pub(crate) fn count(self) -> usize
        ensures value { result ≡ self }
        ensures bound { result ≤ most_members }
    {
        usize::from(self.number)
    }
}
