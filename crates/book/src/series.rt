// A series, and what a booking makes of it.
ghost use Rattle.std.specs.Prelude.{◌≡◌};
ghost use Rattle.ledger.specs.Checks.{decided};
ghost use Rattle.ledger.specs.Ledger.{net_of};
ghost use Rattle.ledger.specs.Bookings.{listed_row, volume_dealt, cost_dealt, repriced_row};
ghost use Rattle.book.specs.Views.{net_from, row_from};
ghost use Rattle.book.specs.Booked.{with_net, deal_checks, deal_left};

use super::seat::Seat;
use super::state::{Position, Series};
use super::trade::{Trade, signed};
use ledger::deal::Deal;
use ledger::fields::Checked;
use ledger::limits::SEATS;
use ledger::listing::Listing;
use ledger::repricing::Repricing;
use sharing::refusal::Refusal;

impl Series {
    // A series as it is listed: nobody holds anything in it.
    pub(crate) fn listed(listing: &Checked<Listing>) -> Self
        ensures { row_from result ≡ listed_row listing.now }
    {
        let Listing {
            code,
            size,
            price,
            risk,
            ..
        } = **listing;
        Series {
            code,
            market: listing.market(),
            size,
            price,
            risk,
            positions: [Position::flat(); SEATS],
        }
    }

    pub(crate) fn position_of(&self, seat: Seat) -> Position
        ensures { net_from result ≡ net_of (row_from self.now) seat }
    {
        self.positions[seat.place()]
    }

    fn set_position(&mut self, seat: Seat, position: Position)
        ensures { row_from self.new ≡ with_net seat (net_from position) (row_from self.old) }
    {
        self.positions[seat.place()] = position;
    }

    // What a deal in the series adds to the position of its seat: lots × size, and that × its own price. The tests of
    // fields are open to the prover here, for the limits of lots and price.
    #[tactic(auto, using(crate::proofs::Trades::trade_limits), unfolding(ledger::specs::Limits::field_outside))]
    fn trade(&self, deal: &Checked<Deal>) -> Trade
        ensures volume { result.volume ≡ volume_dealt self.now.size deal.now }
        ensures cost { result.cost ≡ cost_dealt self.now.size deal.now }
    {
        let side = deal.side();
        let volume = u64::from(deal.lots) * u64::from(self.size);
        let cost = volume * u64::from(deal.price);
        Trade {
            volume: signed(side, volume),
            cost: signed(side, cost),
        }
    }

    // Books a deal into the position of a seat, unless that would leave its limits.
    pub(crate) fn deal(&mut self, seat: Seat, deal: &Checked<Deal>) -> Result<(), Refusal>
        ensures answers { result ≡ decided (deal_checks seat deal.now (row_from self.old)) tt }
        ensures deals { row_from self.new ≡ deal_left seat deal.now result (row_from self.old) }
    {
        let Some(position) = self.position_of(seat).after(&self.trade(deal)) else {
            return Err(Refusal::PositionLimits);
        };
        self.set_position(seat, position);
        Ok(())
    }

    // A new clearing price and a new risk parameter; positions stay. The tests of fields are open for their limits.
    #[tactic(auto, unfolding(ledger::specs::Limits::field_outside))]
    pub(crate) fn reprice(&mut self, repricing: &Checked<Repricing>)
        ensures { row_from self.new ≡ repriced_row repricing.now (row_from self.old) }
    {
        let Repricing { price, risk, .. } = **repricing;
        self.price = price;
        self.risk = risk;
    }
}
