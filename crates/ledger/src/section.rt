ghost use Rattle.std.specs.Prelude.{◌≡◌};
ghost use Rattle.ledger.specs.Numbers.{section_number};

// The sections of a day file, in the order in which they stand there.
#[derive(Clone, Copy, PartialEq, Eq, Debug)]
pub enum Section {
    Series = 1,
    Deals = 2,
    Marks = 3,
}

// A section by the number under which it is reported.
impl From<Section> for u8 {
    ghost from_gives = { λ s n. n ≡ section_number s };

    fn from(section: Section) -> u8 {
        section as u8
    }
}
