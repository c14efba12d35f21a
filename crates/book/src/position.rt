// A position, and what a deal makes of it.
ghost use Rattle.std.specs.Prelude.{◌≡◌};
ghost use Rattle.ledger.specs.Ledger.{flat};
ghost use Rattle.book.specs.Views.{net_from};
ghost use Rattle.book.specs.Booked.{kept_in, seen, traded};

use super::state::Position;
use super::trade::Trade;
use ledger::limits::position_outside;

impl Position {
    // Nothing held.
    pub(crate) fn flat() -> Self
        ensures { net_from result ≡ flat }
    {
        Position { volume: 0, cost: 0 }
    }

    // The position of these two figures, which are what one is made of, unless it is outside its limits.
    fn within_limits(volume: i64, cost: i64) -> Option<Position>
        ensures { seen result ≡ kept_in (record { volume = volume; cost = cost }) }
    {
        if position_outside(volume, cost) {
            return None;
        }
        Some(Position { volume, cost })
    }

    // The position with a trade added, unless that is outside its limits.
    pub(crate) fn after(&self, trade: &Trade) -> Option<Position>
        ensures { seen result ≡ kept_in (traded trade.now (net_from self.now)) }
    {
        Position::within_limits(self.volume + trade.volume, self.cost + trade.cost)
    }
}
