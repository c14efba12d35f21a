// The book of a power group: what it holds, and its calls.
#![tactic(auto)]

mod bookings;
mod calls;
mod entry;
mod lookup;
mod members;
mod position;
mod questions;
mod seat;
mod series;
mod set_off;
mod stages;
pub mod state;
mod trade;
