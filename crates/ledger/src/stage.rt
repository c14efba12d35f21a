// The stages of a book, and what leads from one to the other.

// In stage open a book takes bookings; struck, it makes margin calls.
#[derive(Clone, Copy, PartialEq, Eq, Debug)]
pub enum Stage {
    Open,
    Struck,
}

#[derive(Clone, Copy, PartialEq, Eq, Debug)]
pub enum Event {
    Strike,
    Reopening,
}
