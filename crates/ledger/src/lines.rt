// The lines that the set-off question and the margin call write, one a member.

// A member's initial margin in one series, in units.
#[derive(Clone, Copy, PartialEq, Eq, Debug, Default)]
pub struct SetOffLine {
    pub seat: u8,
    pub before: u64,
    pub after: u64,
}

// A member's line in the report of a margin call.
#[derive(Clone, Copy, PartialEq, Eq, Debug, Default)]
pub struct ReportLine {
    pub seat: u8,
    // margins before and after set-off over all series, in units
    pub before: u64,
    pub after: u64,
    // in grosze
    pub additional: i64,
    // in zloty
    pub balance: i64,
    pub share: u64,
    pub call: u64,
}
