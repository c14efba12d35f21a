ghost use Rattle.std.specs.Prelude.{◌≡◌};
ghost use Rattle.sharing.specs.Refusals.{number_of};

// Why a call of the module is refused: each cause has its number.
#[derive(Clone, Copy, PartialEq, Eq, Debug)]
pub enum Refusal {
    // the number of members is not 1 to 8
    MemberCount = 1,
    // the seat is not 1 to the number of members
    NoSuchSeat = 2,
    // the code is not listed
    NotListed = 3,
    // the code is listed already
    ListedAlready = 4,
    // a field of a listing, deal or repricing, other than the seat, is outside its limits
    FieldOutsideLimits = 5,
    // forty-eight series are held
    BookFull = 6,
    // a net volume or a net cost would leave its limits
    PositionLimits = 7,
    // the call is not allowed in this stage
    WrongStage = 8,
    // fewer lines than members, or a text space too short for the print
    TooLittleRoom = 9,
    // the total needs or the total surplus is above 3,000,000,000 zloty
    TotalsTooLarge = 10,
    // an amount that cannot be shared by these weights, or divided by these needs
    CannotShare = 11,
    // a surplus to share, and no volume on the major side
    NoVolume = 12,
    // the sequence is not a full order of the eight seats
    NotAFullOrder = 13,
    // the contents of a day file are broken
    BrokenContents = 14,
    // a record of a day file has a field outside its limits
    RecordOutsideLimits = 15,
    // the book refuses a record of a day file
    RecordRefused = 16,
}

// The number by which a cause is reported.
impl From<Refusal> for u8 {
    ghost from_gives = { λ refusal number. number ≡ number_of refusal };

    fn from(refusal: Refusal) -> u8 {
        refusal as u8
    }
}
