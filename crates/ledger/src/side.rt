ghost use Rattle.std.specs.Prelude.{◌≡◌};
ghost use Rattle.ledger.specs.Numbers.{side_numbered, known};

use super::unknown::UnknownNumber;

// The side that a member takes in a deal.
#[derive(Clone, Copy, PartialEq, Eq, Debug)]
pub enum Side {
    Purchase = 1,
    Sale = 2,
}

impl TryFrom<u16> for Side {
    type Error = UnknownNumber;

    ghost try_from_gives = { λ n r. r ≡ known side_numbered n };

    fn try_from(number: u16) -> Result<Self, UnknownNumber> {
        match number {
            1 => Ok(Side::Purchase),
            2 => Ok(Side::Sale),
            _ => Err(UnknownNumber(number)),
        }
    }
}
