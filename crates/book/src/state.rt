// What a book holds, in fixed memory. The limits are part of the types.
ghost use Rattle.std.specs.Prelude.{◌≡◌, ◌≤◌, length, unsigned_abs};
ghost use Rattle.ledger.specs.Limits.{most_members, most_series, most_code, most_size, most_price, most_risk, most_volume, most_cost};
ghost use Rattle.ledger.specs.History.{Between};

use super::members::Members;
use ledger::limits::{MOST_SERIES, SEATS};
use ledger::market::Market;
use ledger::stage::Stage;

// A member's position in a series: net volume in MWh and net cost in grosze.
#[derive(Clone, Copy, PartialEq, Eq, Debug)]
pub struct Position {
    pub(crate) volume: i64,
    pub(crate) cost: i64,
    ghost within: { (unsigned_abs volume ≤ most_volume) × (unsigned_abs cost ≤ most_cost) },
}

// A series, with the position of each of the eight seats: memory is fixed, so each seat has a place, whatever the number of
// members.
#[derive(Clone, Copy, PartialEq, Eq, Debug)]
pub struct Series {
    pub(crate) code: u32,
    pub(crate) market: Market,
    // MWh per lot
    pub(crate) size: u16,
    // the clearing price, in grosze per MWh
    pub(crate) price: u32,
    // the risk parameter, in ten-thousandths
    pub(crate) risk: u32,
    pub(crate) positions: [Position; SEATS],
    ghost coded: { Between 1 most_code code },
    ghost sized: { Between 1 most_size size },
    ghost priced: { Between 1 most_price price },
    ghost risky: { Between 1 most_risk risk },
    ghost seats: { length positions ≡ most_members },
}

// A book of one group. The first `count` series are listed, in listing order: memory is fixed, and a book is `Copy`, so
// they stand in an array. What stands after them is no part of the book, so that books are not compared field by field.
#[derive(Clone, Copy)]
pub struct Book {
    pub(crate) stage: Stage,
    pub(crate) members: Members,
    pub(crate) count: usize,
    pub(crate) series: [Series; MOST_SERIES],
    ghost peopled: { Between 1 most_members members },
    ghost few: { count ≤ most_series },
    ghost room: { length series ≡ most_series },
}
