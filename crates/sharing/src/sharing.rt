// The one method of sharing, for every kind of weighed claim.
ghost use Rattle.std.specs.Prelude.{◌≡◌, ◌≤◌, map};
ghost use Rattle.sharing.specs.Lists.{total, among, repeated};
ghost use Rattle.sharing.specs.Sharing.{most_weight, portion, shares, weighed, shared, each_given, settled};
ghost use Rattle.sharing.specs.Theorems.{SharedFairly};

use super::claims::{Owned, WeighedClaim};
use super::refusal::Refusal;
use super::totals::total_within;

// The largest amount that can be shared.
pub const MOST_AMOUNT: u64 = 100_000_000_000_000_000;

// Whether one of the claims belongs to the owner.
fn owner_among<T: Owned>(claims: &[T], owner: u64) -> bool
    ensures { result ≡ among owner (map T.holder claims.now) }
{
    claims.iter().any(|claim| claim.owner() == owner)
}

// Whether two of the claims belong to one owner.
fn owner_repeated<T: Owned>(claims: &[T]) -> bool
    ensures { result ≡ repeated (map T.holder claims.now) }
{
    let mut rest = claims;
    while let Some((claim, others)) = rest.split_first() {
        if owner_among(others, claim.owner()) {
            return true;
        }
        rest = others;
    }
    false
}

// An amount, and the whole weight that it is shared by.
#[derive(Clone, Copy, PartialEq, Eq, Debug)]
struct Sharing {
    amount: u64,
    whole: u64,
    ghost within: { whole ≤ most_weight },
}

impl Sharing {
    // The running share of claims that weigh `first` of the whole: with the quotient q and the remainder m of the amount
    // by the whole, `first` × q and the whole part of `first` × m / whole.
    fn running_share(self, first: u64) -> u64
        requires { first ≤ self.whole }
        ensures { result ≡ portion self.amount self.whole first }
    {
        if self.whole == 0 {
            return 0;
        }
        let (q, m) = (self.amount / self.whole, self.amount % self.whole);
        first * q + first * m / self.whole
    }
}

// Writes the share into the claim: it is copied out, its share set, and stored back.
fn set_share<T: WeighedClaim>(claim: &mut T, share: u64)
    ensures { claim.new ≡ T.given claim.old share }
{
    *claim = claim.with_share(share);
}

// Writes into each claim its share of the amount: its running share less the one before it. `sum` is the sum of the
// first weights.
#[tactic(auto, using(crate::proofs::Shares::all_given))]
fn write_shares<T: WeighedClaim>(claims: &mut [T], sharing: Sharing)
    requires { sharing.whole ≡ total (map T.weighs claims.old) }
    ensures { claims.new ≡ each_given T.given claims.old (shares (map T.weighs claims.old) sharing.amount) }
{
    let mut sum: u64 = 0;
    let mut running: u64 = 0;
    for claim in claims.iter_mut() {
        sum += claim.weight();
        let next = sharing.running_share(sum);
        set_share(claim, next - running);
        running = next;
    }
}

// The sum of the weights, where the amount can be shared by them. Refused where the amount or the sum of the weights is
// above its limit, where there is an amount and no weight, and where two claims belong to one owner.
fn weigh<T: WeighedClaim>(claims: &[T], amount: u64) -> Result<u64, Refusal>
    ensures { result ≡ weighed (map T.Owned.holder claims.now) (map T.weighs claims.now) amount }
{
    if amount > MOST_AMOUNT {
        return Err(Refusal::CannotShare);
    }
    let whole = total_within(claims).ok_or(Refusal::CannotShare)?;
    if amount > 0 && whole == 0 {
        return Err(Refusal::CannotShare);
    }
    if owner_repeated(claims) {
        return Err(Refusal::CannotShare);
    }
    Ok(whole)
}

// Shares the amount among the claims by their weights, and writes each share into its claim; owners and weights stay.
// Where it is refused, the claims are as they were.
pub fn share_out<T: WeighedClaim>(claims: &mut [T], amount: u64) -> Result<(), Refusal>
    ensures answers { result ≡ shared (map T.Owned.holder claims.old) (map T.weighs claims.old) amount }
    ensures settles { claims.new ≡ settled result T.given claims.old (shares (map T.weighs claims.old) amount) }
    ensures owners { map T.Owned.holder claims.new ≡ map T.Owned.holder claims.old }
    ensures weights { map T.weighs claims.new ≡ map T.weighs claims.old }
    ensures fair { SharedFairly result (map T.weighs claims.old) amount (map T.gets claims.new) }
{
    let whole = weigh(claims, amount)?;
    write_shares(claims, Sharing { amount, whole });
    Ok(())
}
