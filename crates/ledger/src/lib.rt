// The vocabulary of the book's calls, and the rulebook: what each call means, and the laws over every run of calls.
#![tactic(auto)]

pub mod deal;
pub mod fault;
pub mod fields;
pub mod limits;
pub mod lines;
pub mod listing;
pub mod market;
pub mod repricing;
pub mod section;
pub mod side;
pub mod stage;
pub mod theorems;
pub mod unknown;
