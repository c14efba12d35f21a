ghost use Rattle.ledger.specs.Bookings.{wrong_repricing};

use super::fields::Fields;
use super::limits::{MOST_CODE, MOST_PRICE, MOST_RISK, field_outside};

// A new clearing price and risk parameter of a series. The fields are as wide as those of a day file's record.
#[derive(Clone, Copy, PartialEq, Eq, Debug)]
pub struct Repricing {
    pub code: u32,
    pub price: u32,
    pub risk: u32,
}

impl Fields for Repricing {
    ghost wrong = { wrong_repricing };

    fn outside_limits(&self) -> bool {
        field_outside(self.code, MOST_CODE)
            || field_outside(self.price, MOST_PRICE)
            || field_outside(self.risk, MOST_RISK)
    }
}
