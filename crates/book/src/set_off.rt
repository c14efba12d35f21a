// The set-off of one series: the initial margins of the members, before and after.
ghost use Rattle.std.specs.Prelude.{◌≡◌, ◌+◌, ◌*◌, ◌<◌, ◌≤◌, length, unsigned_abs};
ghost use Rattle.sharing.specs.Lists.{made};
ghost use Rattle.ledger.specs.Limits.{most_members};
ghost use Rattle.ledger.specs.Sums.{total_ℤ};
ghost use Rattle.ledger.specs.SetOff.{margin_before, minor, major_volume, minor_surplus, spared};
ghost use Rattle.ledger.specs.Margins.{rate_of};
ghost use Rattle.book.specs.Views.{row_from};
ghost use Rattle.book.specs.SettingOff.{most_rate, most_fifth, Terms, terms_of, volumes_held, seat_margin, margins_by, margins_found, holding_of, HoldShares, SharesOut, relief_of, margin_with};

use super::members::Members;
use super::state::{Position, Series};
use ledger::limits::SEATS;
use ledger::lines::SetOffLine;
use sharing::claims::Holding;
use sharing::refusal::Refusal;
use sharing::sharing::share_out;
use std::array;
use std::marker::Model;

// A member's initial margin in a series, in units. That of a seat with no member is zero, before and after.
#[derive(Clone, Copy, PartialEq, Eq, Debug, Default)]
pub(crate) struct Margin {
    pub(crate) before: u64,
    pub(crate) after: u64,
}

impl Margin {
    // The line of the member at this place, who has this margin.
    pub(crate) fn line(&self, place: usize) -> SetOffLine
        requires { place < most_members }
        ensures { result ≡ record { seat = place + 1; before = self.now.before; after = self.now.after } }
    {
        SetOffLine {
            seat: place as u8 + 1,
            before: self.before,
            after: self.after,
        }
    }
}

// A series to be set off: the rate of an MWh, the members' positions in seat order, and the group's net volume. It is
// seen as the rate and the members' net volumes.
#[derive(Drop)]
struct SetOff<'a> {
    rate: u64,
    net: i64,
    held: &'a [Position],
}

impl<'a> Model for SetOff<'a> {
    ghost Value = { Terms };

    ghost view = { λ s. record { rate = s.rate; volumes = volumes_held s.held.now } };

    ghost invariant = { λ s. (s.rate ≤ most_rate) × (length s.held.now ≤ most_members)
        × (s.net ≡ total_ℤ (volumes_held s.held.now)) };
}

// The group's net volume.
fn net_volume(held: &[Position]) -> i64
    requires { length held.now ≤ most_members }
    ensures { result ≡ total_ℤ (volumes_held held.now) }
{
    let mut net = 0;
    // A chain has no clause for a sum that may be below zero.
    for position in held {
        net += position.volume;
    }
    net
}

impl SetOff<'_> {
    // Whether a position is on the minor side: where the group's net volume is not negative, one with a negative
    // volume, and else one with a volume that is not negative.
    fn is_minor(&self, position: &Position) -> bool
        ensures { result ≡ minor (total_ℤ self.now.volumes) position.now.volume }
    {
        if self.net >= 0 {
            position.volume < 0
        } else {
            position.volume >= 0
        }
    }

    // A fifth of the margin before set-off, in units: the rate for each MWh of the volume, bought or sold.
    fn fifth_of(&self, position: &Position) -> u64
        ensures value { result ≡ self.now.rate * unsigned_abs position.now.volume }
        ensures bound { result ≤ most_fifth }
    {
        self.rate * position.volume.unsigned_abs()
    }

    // The surplus of a position on the minor side: four fifths of its margin. One on the major side has none.
    fn surplus_of(&self, position: &Position) -> u64
        ensures value { result ≡ minor_surplus self.now.rate (total_ℤ self.now.volumes) position.now.volume }
        ensures bound { result ≤ 4 * most_fifth }
    {
        if self.is_minor(position) {
            4 * self.fifth_of(position)
        } else {
            0
        }
    }

    // The volume that takes a part of the surplus: that of a position on the major side. One on the minor side has
    // none.
    fn major_volume_of(&self, position: &Position) -> u64
        ensures { result ≡ major_volume (total_ℤ self.now.volumes) position.now.volume }
    {
        if self.is_minor(position) {
            0
        } else {
            position.volume.unsigned_abs()
        }
    }

    // The surplus of the whole minor side.
    fn surplus(&self) -> u64
        ensures { result ≡ spared self.now.rate self.now.volumes }
    {
        self.held
            .iter()
            .map(|position| self.surplus_of(position))
            .sum()
    }

    // Writes what each seat holds on the major side, as its claim to the surplus, with nothing shared to it yet. Memory is
    // fixed: there is a place for each seat, whatever the number of members. One with no member holds nothing.
    fn write_holdings(&self, holdings: &mut [Holding; SEATS])
        ensures { holdings.new ≡ made 8 (holding_of self.now) }
    {
        *holdings = array::from_fn(|place| Holding::new(place as u8 + 1, 0));
        for (place, position) in self.held.iter().enumerate() {
            holdings[place].weight = self.major_volume_of(position);
        }
    }

    // The holdings, with the surplus of the minor side shared among the members' by their volumes. It is refused where
    // there is a surplus and no volume to share it by: within the limits, nothing else refuses a sharing.
    fn shared_holdings(&self) -> Result<[Holding; SEATS], Refusal>
        ensures { SharesOut self.now result }
    {
        // lent to be written, since an array that a function answers is copied
        let mut holdings = [Holding::new(0, 0); SEATS];
        self.write_holdings(&mut holdings);
        let members = self.held.len();
        match share_out(&mut holdings[..members], self.surplus()) {
            Ok(()) => Ok(holdings),
            Err(_) => Err(Refusal::NoVolume),
        }
    }

    // What set-off takes off a margin: on the minor side its surplus, on the major side a share of it.
    fn relief_of(&self, position: &Position, share: u64) -> u64
        ensures { result ≡ relief_of self.now position.now.volume share }
    {
        if self.is_minor(position) {
            self.surplus_of(position)
        } else {
            share
        }
    }

    // A margin: five fifths before set-off, and after it what the relief leaves.
    fn margin_with(&self, position: &Position, share: u64) -> Margin
        requires { relief_of self.now position.now.volume share
            ≤ margin_before self.now.rate position.now.volume }
        ensures { result ≡ margin_with self.now position.now.volume share }
    {
        let before = 5 * self.fifth_of(position);
        let relief = self.relief_of(position, share);
        Margin {
            before,
            after: before - relief,
        }
    }

    // The margin of the seat at this place, by what was shared to its holding.
    fn margin_at(&self, place: usize, holdings: &[Holding; SEATS]) -> Margin
        requires { HoldShares self.now holdings.now }
        ensures { result ≡ seat_margin self.now place }
    {
        match self.held.get(place) {
            Some(position) => self.margin_with(position, holdings[place].share),
            None => Margin::default(),
        }
    }

    // The initial margins of the members. A member on the minor side keeps a fifth of his margin, and those on the
    // major side share what the minor side is spared. Memory is fixed: each seat has a place, and one with no member a
    // margin of zero.
    fn margins(&self) -> Result<[Margin; SEATS], Refusal>
        ensures { result ≡ margins_by self.now }
    {
        let holdings = self.shared_holdings()?;
        Ok(array::from_fn(|place| self.margin_at(place, &holdings)))
    }
}

impl Series {
    // The rate of an MWh: price × risk.
    fn rate(&self) -> u64
        ensures value { result ≡ rate_of (row_from self.now) }
        ensures bound { result ≤ most_rate }
    {
        u64::from(self.price) * u64::from(self.risk)
    }

    // The set-off of the first seats, those of the members.
    fn set_off(&self, members: Members) -> SetOff<'_>
        ensures { result ≡ terms_of members (row_from self.now) }
    {
        let held = &self.positions[..members.count()];
        SetOff {
            rate: self.rate(),
            net: net_volume(held),
            held,
        }
    }

    // The initial margins of the members, before and after set-off.
    pub(crate) fn margins(&self, members: Members) -> Result<[Margin; SEATS], Refusal>
        ensures { result ≡ margins_found members (row_from self.now) }
    {
        self.set_off(members).margins()
    }
}
