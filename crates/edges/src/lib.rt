// Sharing, division, the fields of bookings and the calls of a book at the edges of their limits. The expected figures are
// worked out by hand beside each test.
#![tactic(auto)]

#[cfg(test)]
mod booked;
#[cfg(test)]
mod divided;
#[cfg(test)]
mod fields;
#[cfg(test)]
mod offset;
#[cfg(test)]
mod samples;
#[cfg(test)]
mod shared;
