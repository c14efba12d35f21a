// What every division rule owes.
ghost use Rattle.std.specs.Prelude.{◌≡◌, ℕ, List, false, if◌then◌else◌, Ok, Err, OnOk};
ghost use Rattle.rules.specs.Division.{Lawful, undividable, divided};

use sharing::refusal::Refusal;
use sharing::totals::total_within;

// A division rule is handed eight needs in zloty, by seat, and an amount. Its meaning is the list of eight shares, fixed
// by the rule as it is set, the needs and the amount alone. By its law, wherever it does not refuse, there are eight
// shares, each at most its need, and they sum to the amount.
//
// Needs and amount are the two arguments that a rule is handed, so they are no type of their own.
pub trait DivisionRule {
    ghost meaning: { Self → List ℕ → ℕ → List ℕ };

    fn divide(&self, needs: &[u64; 8], amount: u64) -> Result<[u64; 8], Refusal>
        ensures answers { result ≡ divided (meaning self.now) needs.now amount }
        ensures stays { (self.exit.now ≡ self.entry.now) × (needs.exit.now ≡ needs.entry.now) };

    ghost fair: { (rule : Self) → Lawful (meaning rule) };
}

// Whether a rule refuses: the needs total more than the limit, or the amount exceeds their total.
pub fn cannot_divide(needs: &[u64; 8], amount: u64) -> bool
    ensures { result ≡ undividable needs.now amount }
{
    total_within(needs).is_none_or(|total| total < amount)
}

// The refusal of a rule, where it refuses.
pub(crate) fn dividable(needs: &[u64; 8], amount: u64) -> Result<(), Refusal>
    ensures answers { result ≡ (if undividable needs.now amount then Err Refusal.CannotShare else Ok tt) }
    ensures may { OnOk result (undividable needs.now amount ≡ false) }
{
    if cannot_divide(needs, amount) {
        return Err(Refusal::CannotShare);
    }
    Ok(())
}
