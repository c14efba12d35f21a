// The limits that the calls check, and the tests against them.
ghost use Rattle.std.specs.Prelude.{◌≡◌, not, nat_le};
ghost use Rattle.ledger.specs.Limits.{outside, field_outside, most_members, most_series, least_file, most_file};
ghost use Rattle.ledger.specs.Ledger.{in_limits};

// a group has 1 to 8 members, and a book holds at most 48 series
pub const MOST_MEMBERS: u16 = 8;

pub const MOST_SERIES: usize = 48;

// the seats of a book, whatever the number of its members
pub const SEATS: usize = 8;

// the fields of a listing, a deal and a repricing, all from 1
pub const MOST_CODE: u32 = 999_999;

pub const MOST_MARKET: u16 = 3;

pub const MOST_SIZE: u16 = 8_784;

pub const MOST_PRICE: u32 = 400_000;

pub const MOST_RISK: u32 = 5_000;

pub const MOST_SIDE: u16 = 2;

pub const MOST_LOTS: u32 = 2_000_000;

// a position, in MWh and in grosze, on either side of zero
pub const MOST_VOLUME: u64 = 2_000_000;

pub const MOST_COST: u64 = 800_000_000_000;

// a day file, in bytes
pub const LEAST_FILE: usize = 36;

pub const MOST_FILE: usize = 65_536;

// Whether a field of a booking is not 1 to the most that it may be.
#[tactic(auto, unfolding(crate::specs::Limits::field_outside))]
pub(crate) fn field_outside(field: u32, most: u32) -> bool
    ensures { result ≡ field_outside most field }
{
    !(1..=most).contains(&field)
}

// Whether a number of members, or the seat in a record of a day file, is not 1 to 8.
pub fn members_outside(members: u16) -> bool
    ensures { result ≡ outside 1 most_members members }
{
    !(1..=MOST_MEMBERS).contains(&members)
}

// Whether a book that holds so many series takes no more.
pub fn series_full(count: usize) -> bool
    ensures { result ≡ nat_le most_series count }
{
    count >= MOST_SERIES
}

// Whether a position is outside its limits. It takes the two figures, since no position outside exists.
pub fn position_outside(volume: i64, cost: i64) -> bool
    ensures { result ≡ not (in_limits (record { volume = volume; cost = cost })) }
{
    volume.unsigned_abs() > MOST_VOLUME || cost.unsigned_abs() > MOST_COST
}

// Whether a file of that many bytes is shorter than its contents, or longer than a day file may be.
pub fn file_length_outside(length: usize) -> bool
    ensures { result ≡ outside least_file most_file length }
{
    !(LEAST_FILE..=MOST_FILE).contains(&length)
}
