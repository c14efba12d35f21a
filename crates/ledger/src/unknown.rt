ghost use Rattle.std.specs.Prelude.{◌++◌, Some, codes, decimal};

use std::error::Error;
use std::fmt;

// A number that stands for no market, or for no side.
#[derive(Clone, Copy, PartialEq, Eq, Debug)]
pub struct UnknownNumber(pub u16);

impl fmt::Display for UnknownNumber {
    ghost output = { λ unknown. Some (codes "nothing has the number " ++ decimal unknown.0) };

    fn fmt<W: fmt::Write>(&self, f: &mut fmt::Formatter<W>) -> fmt::Result {
        write!(f, "nothing has the number {}", self.0)
    }
}

impl Error for UnknownNumber {}
