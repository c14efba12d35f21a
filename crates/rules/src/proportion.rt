// In proportion: the needs share the amount as weighed claims.
ghost use Rattle.std.specs.Prelude.{◌≡◌, map};
ghost use Rattle.rules.specs.Proportions.{in_proportion, claims_from, claims_shared};
ghost use Rattle.rules.specs.ProportionsLemmas.{fair_proportion};

use super::rule::{DivisionRule, dividable};
use sharing::claims::Need;
use sharing::refusal::Refusal;
use sharing::sharing::share_out;
use std::array;

// The rule in proportion: there is nothing to set.
#[derive(Clone, Copy, PartialEq, Eq, Debug)]
pub struct Proportion;

// The needs as claims of the seats, with nothing shared yet.
fn claims_of(needs: &[u64; 8]) -> [Need; 8]
    ensures { result ≡ claims_from 1 needs.now }
{
    array::from_fn(|place| Need::new(place as u8 + 1, needs[place]))
}

// The claims with their shares of the amount written into them.
fn with_shares(mut claims: [Need; 8], amount: u64) -> Result<[Need; 8], Refusal>
    ensures { result ≡ claims_shared claims amount }
{
    share_out(&mut claims, amount)?;
    Ok(claims)
}

// The shares that the claims hold.
fn shares_of(claims: &[Need; 8]) -> [u64; 8]
    ensures { result ≡ map (λ n. n.share) claims.now }
{
    claims.map(|claim| claim.share)
}

impl DivisionRule for Proportion {
    ghost meaning = { λ _ needs amount. in_proportion needs amount };

    ghost fair = { λ rule. fair_proportion };

    fn divide(&self, needs: &[u64; 8], amount: u64) -> Result<[u64; 8], Refusal> {
        dividable(needs, amount)?;
        let claims = with_shares(claims_of(needs), amount)?;
        Ok(shares_of(&claims))
    }
}
