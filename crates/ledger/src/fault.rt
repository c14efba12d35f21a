// Why a day file is not loaded, and the four numbers of a refusal.
ghost use Rattle.std.specs.Prelude.{◌≡◌};
ghost use Rattle.ledger.specs.Numbers.{plain_numbers, fault_numbers, load_numbers};

use super::section::Section;
use sharing::refusal::Refusal;

#[derive(Clone, Copy, PartialEq, Eq, Debug)]
pub enum LoadFault {
    // the book is struck
    WrongStage,
    // the file is shorter than its contents or longer than a file may be
    FileLength,
    // the first bad entry of the contents
    BrokenEntry(Section),
    // a record, counted from 1 in its section, that has a field outside its limits
    OutsideLimits(Section, u16),
    // the first record that the book refuses, and why
    Refused(Section, u16, Refusal),
}

// The four numbers by which a refusal is reported; all are 0 where a load is accepted. They are numbers because a report has
// numbers: `Refusal` and `LoadFault` are the causes as the code knows them.
#[derive(Clone, Copy, PartialEq, Eq, Debug, Default)]
pub struct RefusalNumbers {
    pub refusal: u8,
    // 1 to 3, or 0
    pub section: u8,
    // the record's number in its section, from 1, or 0
    pub place: u16,
    // what is wrong with the record: 5, or the number of the book's refusal; or 0
    pub cause: u8,
}

// A refusal outside a load has its own number, and three times 0.
impl From<Refusal> for RefusalNumbers {
    ghost from_gives = { λ r ns. ns ≡ plain_numbers r };

    fn from(refusal: Refusal) -> Self {
        RefusalNumbers {
            refusal: u8::from(refusal),
            ..RefusalNumbers::default()
        }
    }
}

impl From<LoadFault> for RefusalNumbers {
    ghost from_gives = { λ f ns. ns ≡ fault_numbers f };

    fn from(fault: LoadFault) -> Self {
        match fault {
            LoadFault::WrongStage => RefusalNumbers::from(Refusal::WrongStage),
            LoadFault::FileLength => RefusalNumbers::from(Refusal::BrokenContents),
            LoadFault::BrokenEntry(section) => RefusalNumbers {
                refusal: u8::from(Refusal::BrokenContents),
                section: u8::from(section),
                ..RefusalNumbers::default()
            },
            LoadFault::OutsideLimits(section, place) => RefusalNumbers {
                refusal: u8::from(Refusal::RecordOutsideLimits),
                section: u8::from(section),
                place,
                cause: u8::from(Refusal::FieldOutsideLimits),
            },
            LoadFault::Refused(section, place, cause) => RefusalNumbers {
                refusal: u8::from(Refusal::RecordRefused),
                section: u8::from(section),
                place,
                cause: u8::from(cause),
            },
        }
    }
}

// What a load answers: the numbers of its fault, or four times 0 where it is accepted.
impl From<Result<(), LoadFault>> for RefusalNumbers {
    ghost from_gives = { λ a ns. ns ≡ load_numbers a };

    fn from(answer: Result<(), LoadFault>) -> Self {
        match answer {
            Ok(()) => RefusalNumbers::default(),
            Err(fault) => RefusalNumbers::from(fault),
        }
    }
}
