// One surplus divided by a rule, with the calls that remain.
ghost use Rattle.std.specs.Prelude.{◌≡◌, ℕ, ◌+◌, ◌-◌, ◌^◌, ◌<◌, ◌≤◌, sum, sum_by, ◌&&◌, ◌==◌, slice_index};
ghost use Rattle.sharing.specs.Lists.{total};
ghost use Rattle.sharing.specs.Sharing.{most_weight};
ghost use Rattle.checklist.specs.Dividing.{division_of, outcome, both, AddsUp, SameTotals};

use rules::rule::DivisionRule;
use sharing::refusal::Refusal;
use std::array;

// One seat's part of a division, in zloty: a call is a need less its share.
#[derive(Clone, Copy, PartialEq, Eq, Debug)]
pub struct Part {
    pub need: u64,
    pub share: u64,
    pub call: u64,
}

impl Part {
    fn new(need: u64, share: u64) -> Self
        requires { share ≤ need }
        ensures { result ≡ record { need = need; share = share; call = need - share } }
    {
        Part {
            need,
            share,
            call: need - share,
        }
    }
}

// What a rule makes of a group's needs: the parts by seat, and their sums.
#[derive(Clone, Copy, PartialEq, Eq, Debug)]
pub struct Division {
    pub parts: [Part; 8],
    pub needed: u64,
    pub shared: u64,
    pub called: u64,
}

fn sum_of(numbers: &[u64; 8]) -> u64
    requires { sum numbers.now < 2 ^ 64 }
    ensures { result ≡ sum numbers.now }
{
    numbers.iter().sum()
}

fn called_of(parts: &[Part; 8]) -> u64
    requires { sum_by (λ p. p.call) parts.now < 2 ^ 64 }
    ensures { result ≡ sum_by (λ p. p.call) parts.now }
{
    parts.iter().map(|part| part.call).sum()
}

// The division of these shares, with the calls that they leave.
fn division_from(needs: &[u64; 8], shares: &[u64; 8]) -> Division
    requires low { total needs.now ≤ most_weight }
    requires within { (k : ℕ) → slice_index shares.now k ≤ slice_index needs.now k }
    ensures is { result ≡ division_of needs.now shares.now }
    ensures adds { result.called + result.shared ≡ total needs.now }
{
    let parts = array::from_fn(|place| Part::new(needs[place], shares[place]));
    Division {
        parts,
        needed: sum_of(needs),
        shared: sum_of(shares),
        called: called_of(&parts),
    }
}

// Divides the amount among the needs by the rule. By every rule the shares sum to the amount, and the calls to what
// the needs exceed it by.
pub fn divide_by<R: DivisionRule>(
    rule: &R,
    needs: &[u64; 8],
    amount: u64,
) -> Result<Division, Refusal>
    ensures answers { result ≡ outcome (R.meaning rule.now) needs.now amount }
    ensures adds { AddsUp needs.now amount result }
{
    let shares = rule.divide(needs, amount)?;
    Ok(division_from(needs, &shares))
}

// Divides the amount by one rule and by another: whichever they are, no total differs.
pub fn divide_by_both<A: DivisionRule, B: DivisionRule>(
    first: &A,
    second: &B,
    needs: &[u64; 8],
    amount: u64,
) -> Result<(Division, Division), Refusal>
    ensures answers { result ≡ both (A.DivisionRule.meaning first.now) (B.DivisionRule.meaning second.now) needs.now amount }
    ensures totals { SameTotals result }
{
    Ok((
        divide_by(first, needs, amount)?,
        divide_by(second, needs, amount)?,
    ))
}

// Whether the sums of the shares and of the calls are the same.
pub fn same_totals(first: &Division, second: &Division) -> bool
    ensures { result ≡ (first.now.shared == second.now.shared && first.now.called == second.now.called) }
{
    (first.shared, first.called) == (second.shared, second.called)
}
