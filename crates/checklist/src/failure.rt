// Why the checklist ends before its last line.
ghost use Rattle.std.specs.Prelude.{◌≡◌};
ghost use Rattle.checklist.specs.declared.failure.Failure.TheVariants.{Refused};
ghost use Rattle.checklist.specs.Failures.{failure_text};

use sharing::refusal::Refusal;
use std::{fmt, io};

#[derive(Drop, Debug)]
pub(crate) enum Failure {
    // the module refused what it should take
    Refused(Refusal),
    // by two rules the totals differ
    TotalMoved,
    // nothing more can be printed
    Output(io::Error),
}

impl fmt::Display for Failure {
    ghost output = { failure_text };

    fn fmt<W: fmt::Write>(&self, f: &mut fmt::Formatter<W>) -> fmt::Result {
        match self {
            Failure::Refused(refusal) => {
                write!(f, "the module refused with {}", u8::from(*refusal))
            }
            Failure::TotalMoved => write!(f, "changing the rule moved a total"),
            Failure::Output(error) => write!(f, "{error}"),
        }
    }
}

impl From<Refusal> for Failure {
    ghost from_gives = { λ refusal failure. failure ≡ Refused refusal };

    fn from(refusal: Refusal) -> Failure {
        Failure::Refused(refusal)
    }
}

impl From<io::Error> for Failure {
    fn from(error: io::Error) -> Failure {
        Failure::Output(error)
    }
}
