// By sequence: the seats take their turns, and each gets the smaller of its need and what is left.
ghost use Rattle.std.specs.Prelude.{◌≡◌, min, true, if◌then◌else◌, Ok, Err};
ghost use Rattle.rules.specs.Sequences.{times, each_once, full_order, eight_seats, by_sequence};
ghost use Rattle.rules.specs.Turns.{fair_sequence};

use super::rule::{DivisionRule, dividable};
use sharing::refusal::Refusal;

const EIGHT_SEATS: [u8; 8] = [1, 2, 3, 4, 5, 6, 7, 8];

// The order in which the eight seats take their turns: it names each of them just once.
#[derive(Clone, Copy, PartialEq, Eq, Debug)]
pub struct Sequence {
    seats: [u8; 8],
    ghost full: { full_order seats ≡ true },
}

// How often a seat is named.
fn times_named(seats: &[u8], seat: u8) -> usize
    ensures { result ≡ times seat seats.now }
{
    // each number that names it adds one
    seats.iter().map(|named| usize::from(*named == seat)).sum()
}

// Whether each of the sought seats is named just once.
fn each_named_once(sought: &[u8], seats: &[u8]) -> bool
    ensures { result ≡ each_once sought.now seats.now }
{
    sought.iter().all(|seat| times_named(seats, *seat) == 1)
}

// Whether the numbers are a full order of the eight seats.
fn is_full_order(seats: &[u8]) -> bool
    ensures { result ≡ full_order seats.now }
{
    seats.len() == 8 && each_named_once(&EIGHT_SEATS, seats)
}

impl Sequence {
    // A fresh sequence: seats 1 to 8 in order.
    pub fn new() -> Self
        ensures { result.seats ≡ eight_seats }
    {
        Sequence { seats: EIGHT_SEATS }
    }

    // The seats in the order of their turns.
    pub fn seats(&self) -> [u8; 8]
        ensures { result ≡ self.now.seats }
    {
        self.seats
    }

    // Sets the order. Refused, and the old order stays, where it is not a full order of the eight seats.
    #[tactic(auto, using(crate::specs::Orders::length_order))]
    pub fn reorder(&mut self, seats: &[u8]) -> Result<(), Refusal>
        ensures answers { result ≡ (if full_order seats.now then Ok tt else Err Refusal.NotAFullOrder) }
        ensures orders { self.new.seats ≡ (if full_order seats.now then seats.now else self.old.seats) }
    {
        if !is_full_order(seats) {
            return Err(Refusal::NotAFullOrder);
        }
        let order = <[u8; 8]>::try_from(seats).unwrap();
        self.seats = order;
        Ok(())
    }

    // The shares by seat: each seat in its turn gets the smaller of its need and what is left.
    #[tactic(auto, using(crate::specs::Orders::order_at))]
    fn serve(&self, needs: &[u64; 8], amount: u64) -> [u64; 8]
        ensures { result ≡ by_sequence self.now.seats needs.now amount }
    {
        let mut shares: [u64; 8] = [0; 8];
        let mut left = amount;
        for seat in &self.seats {
            let place = usize::from(*seat) - 1;
            let share = needs[place].min(left);
            shares[place] = share;
            left -= share;
        }
        shares
    }
}

impl DivisionRule for Sequence {
    ghost meaning = { λ s needs amount. by_sequence s.seats needs amount };

    ghost fair = { λ rule. fair_sequence rule.seats rule.full };

    fn divide(&self, needs: &[u64; 8], amount: u64) -> Result<[u64; 8], Refusal> {
        dividable(needs, amount)?;
        Ok(self.serve(needs, amount))
    }
}
