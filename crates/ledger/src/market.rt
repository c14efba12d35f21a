ghost use Rattle.std.specs.Prelude.{◌≡◌};
ghost use Rattle.ledger.specs.Numbers.{market_numbered, known};

use super::unknown::UnknownNumber;

#[derive(Clone, Copy, PartialEq, Eq, Debug)]
pub enum Market {
    Electricity = 1,
    Gas = 2,
    PropertyRights = 3,
}

impl TryFrom<u16> for Market {
    type Error = UnknownNumber;

    ghost try_from_gives = { λ n r. r ≡ known market_numbered n };

    fn try_from(number: u16) -> Result<Self, UnknownNumber> {
        match number {
            1 => Ok(Market::Electricity),
            2 => Ok(Market::Gas),
            3 => Ok(Market::PropertyRights),
            _ => Err(UnknownNumber(number)),
        }
    }
}
