// Sums that must not pass the limit on weights.
ghost use Rattle.std.specs.Prelude.{◌≡◌, ◌+◌, map};
ghost use Rattle.sharing.specs.Lists.{total};
ghost use Rattle.sharing.specs.Sharing.{limited};

use super::claims::Weighed;

// The weights of all claims together, at most.
pub const MOST_WEIGHT: u64 = 3_000_000_000;

// The sum of the two, unless it is above the limit.
fn add_within(sum: u64, more: u64) -> Option<u64>
    ensures { result ≡ limited (sum + more) }
{
    sum.checked_add(more).filter(|both| *both <= MOST_WEIGHT)
}

// The sum of the weights, unless it is above the limit.
pub fn total_within<T: Weighed>(items: &[T]) -> Option<u64>
    ensures { result ≡ limited (total (map T.weighs items.now)) }
{
    // A `for` with `?`, since of `try_fold` a proof knows too little.
    let mut sum = 0;
    for item in items {
        sum = add_within(sum, item.weight())?;
    }
    Some(sum)
}
