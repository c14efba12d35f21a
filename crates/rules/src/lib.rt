// Division rules: how a surplus is divided among the members in need.
#![tactic(auto)]

pub mod proportion;
pub mod rule;
pub mod sequence;
