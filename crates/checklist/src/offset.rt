// A set-off of the sample's series, with its margins added up.
ghost use Rattle.std.specs.Prelude.{◌≡◌, sum_by};

use ledger::lines::SetOffLine;

// The margins of all lines together, in units: before set-off, and after it.
pub fn sums_of(lines: &[SetOffLine; 3]) -> (u128, u128)
    ensures before { result.0 ≡ sum_by (λ x. x.before) lines.now }
    ensures after { result.1 ≡ sum_by (λ x. x.after) lines.now }
{
    (
        lines.iter().map(|line| u128::from(line.before)).sum(),
        lines.iter().map(|line| u128::from(line.after)).sum(),
    )
}
