// How an amount is shared among weighed claims: the claims, the one method of sharing, and the causes of refusal.
#![tactic(auto)]

pub mod claims;
pub mod refusal;
pub mod sharing;
pub mod theorems;
pub mod totals;
