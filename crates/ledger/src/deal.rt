ghost use Rattle.std.specs.Prelude.{◌≡◌, Some};
ghost use Rattle.ledger.specs.Numbers.{side_numbered};
ghost use Rattle.ledger.specs.Bookings.{wrong_deal};

use super::fields::{Checked, Fields};
use super::limits::{MOST_CODE, MOST_LOTS, MOST_PRICE, MOST_SIDE, field_outside};
use super::side::Side;

// A member's deal in a series. The fields are as wide as those of a day file's record.
#[derive(Clone, Copy, PartialEq, Eq, Debug)]
pub struct Deal {
    pub code: u32,
    pub seat: u16,
    // 1 purchase, 2 sale: a number, since any may be handed in, and a wrong one is the
    // call's to refuse
    pub side: u16,
    pub lots: u32,
    // in grosze per MWh
    pub price: u32,
}

impl Fields for Deal {
    ghost wrong = { wrong_deal };

    // The rules give the limits of a side as a range, so it is tested as one.
    fn outside_limits(&self) -> bool {
        field_outside(self.code, MOST_CODE)
            || field_outside(u32::from(self.side), u32::from(MOST_SIDE))
            || field_outside(self.lots, MOST_LOTS)
            || field_outside(self.price, MOST_PRICE)
    }
}

impl Checked<Deal> {
    // The side that the member takes.
    #[tactic(auto, unfolding(crate::specs::Limits::field_outside))]
    pub fn side(&self) -> Side
        ensures { Some result ≡ side_numbered self.now.side }
    {
        Side::try_from(self.side).unwrap()
    }
}
