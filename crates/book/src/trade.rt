ghost use Rattle.std.specs.Prelude.{◌≡◌, ◌≤◌, unsigned_abs};
ghost use Rattle.book.specs.Trades.{most_traded_volume, most_traded_cost, toward};

use ledger::side::Side;

// What a deal adds to a position: its volume in MWh and its cost in grosze, both below zero in a sale.
// Like a position but for its limits: const parameters for these would be no plainer.
#[derive(Clone, Copy, PartialEq, Eq, Debug)]
pub(crate) struct Trade {
    pub(crate) volume: i64,
    pub(crate) cost: i64,
    ghost few: { unsigned_abs volume ≤ most_traded_volume },
    ghost cheap: { unsigned_abs cost ≤ most_traded_cost },
}

// A figure on the side that the member takes: a purchase adds, a sale subtracts.
pub(crate) fn signed(side: Side, figure: u64) -> i64
    requires { figure ≤ most_traded_cost }
    ensures value { result ≡ toward side figure }
    ensures bound { unsigned_abs result ≤ figure }
{
    match side {
        Side::Purchase => figure as i64,
        Side::Sale => -(figure as i64),
    }
}
