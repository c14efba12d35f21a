// The fields of listings, deals and repricings against their limits, whoever hands them in.
ghost use Rattle.std.specs.Prelude.{◌≡◌, ⊤, Bool, false, [], ◌∷◌};
ghost use Rattle.sharing.specs.declared.refusal.Refusal.TheVariants.{FieldOutsideLimits};
ghost use Rattle.ledger.specs.Checks.{decided};

use sharing::refusal::Refusal;
use std::alloc::AllocError;
use std::marker::Model;
use std::ops::Deref;

pub trait Fields {
    ghost wrong: { Self → Bool };

    // Whether a field is outside its limits. The seat of a deal is looked at by itself.
    fn outside_limits(&self) -> bool
        ensures { result ≡ wrong self.now };
}

// Fields that are within their limits.
#[derive(PartialEq, Eq, Debug)]
pub struct Checked<T: Fields> {
    fields: T,
}

impl<T: Fields> Model for Checked<T> {
    ghost use Rattle.std.specs.Prelude.{◌≡◌, false};

    ghost Value = { T };

    ghost view = { λ c. c.fields };

    ghost invariant = { λ c. T.wrong c.fields ≡ false };

    ghost inverse = { λ t. record { fields = t } };
}

// By hand, since nothing is known of what the clone of every `T` answers. It is a copy, and never fails.
impl<T: Fields + Copy> Clone for Checked<T> {
    ghost is_clone = { λ checked clone. clone ≡ checked };

    ghost is_infallible = { λ _. ⊤ };

    fn clone(&self) -> Result<Self, AllocError> {
        Ok(*self)
    }
}

impl<T: Fields + Copy> Copy for Checked<T> {}

impl<T: Fields + Copy> Checked<T> {
    pub fn new(fields: T) -> Result<Self, Refusal>
        ensures { result ≡ decided ((T.wrong fields, FieldOutsideLimits) ∷ []) fields }
    {
        if fields.outside_limits() {
            return Err(Refusal::FieldOutsideLimits);
        }
        Ok(Checked { fields })
    }
}

// The fields are read as they were handed in.
impl<T: Fields> Deref for Checked<T> {
    type Target = T;

    ghost deref_gives = { λ c fields. (fields ≡ c) × (T.wrong fields ≡ false) };

    fn deref(&self) -> &T {
        &self.fields
    }
}
