ghost use Rattle.std.specs.Prelude.{◌≡◌, Some};
ghost use Rattle.ledger.specs.Numbers.{market_numbered};
ghost use Rattle.ledger.specs.Bookings.{wrong_listing};

use super::fields::{Checked, Fields};
use super::limits::{MOST_CODE, MOST_MARKET, MOST_PRICE, MOST_RISK, MOST_SIZE, field_outside};
use super::market::Market;

// A series to list. The fields are as wide as those of a day file's record.
#[derive(Clone, Copy, PartialEq, Eq, Debug)]
pub struct Listing {
    pub code: u32,
    // 1 electricity, 2 gas, 3 property rights: a number, since any may be handed in, and a wrong one is the
    // call's to refuse
    pub market: u16,
    // MWh per lot
    pub size: u16,
    // the clearing price, in grosze per MWh
    pub price: u32,
    // the risk parameter, in ten-thousandths
    pub risk: u32,
}

impl Fields for Listing {
    ghost wrong = { wrong_listing };

    // The rules give the limits of a market as a range, so it is tested as one.
    fn outside_limits(&self) -> bool {
        field_outside(self.code, MOST_CODE)
            || field_outside(u32::from(self.market), u32::from(MOST_MARKET))
            || field_outside(u32::from(self.size), u32::from(MOST_SIZE))
            || field_outside(self.price, MOST_PRICE)
            || field_outside(self.risk, MOST_RISK)
    }
}

impl Checked<Listing> {
    // The market of the series.
    #[tactic(auto, unfolding(crate::specs::Limits::field_outside))]
    pub fn market(&self) -> Market
        ensures { Some result ≡ market_numbered self.now.market }
    {
        Market::try_from(self.market).unwrap()
    }
}
