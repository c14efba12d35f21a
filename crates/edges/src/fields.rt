// The fields of bookings, positions and files at both of their limits and one past each; and the numbers of refusals.
use super::samples::{self, LISTING};
use ledger::deal::Deal;
use ledger::fault::{LoadFault, RefusalNumbers};
use ledger::fields::{Checked, Fields};
use ledger::limits::{file_length_outside, members_outside, position_outside, series_full};
use ledger::listing::Listing;
use ledger::market::Market;
use ledger::repricing::Repricing;
use ledger::section::Section;
use ledger::side::Side;
use sharing::refusal::Refusal;
use std::test::Fail;

// The seat, here 0, is no matter of these limits.
const DEAL: Deal = Deal {
    seat: 0,
    ..samples::DEAL
};

#[test]
fn listings(rt: HostRuntime) {
    for (code, outside) in [(0, true), (1, false), (999_999, false), (1_000_000, true)] {
        assert_eq!(rt; Listing { code, ..LISTING }.outside_limits(), outside);
    }
    for (market, outside) in [(0, true), (1, false), (3, false), (4, true)] {
        assert_eq!(rt; Listing { market, ..LISTING }.outside_limits(), outside);
    }
    for (size, outside) in [(0, true), (1, false), (8_784, false), (8_785, true)] {
        assert_eq!(rt; Listing { size, ..LISTING }.outside_limits(), outside);
    }
    for (price, outside) in [(0, true), (1, false), (400_000, false), (400_001, true)] {
        assert_eq!(rt; Listing { price, ..LISTING }.outside_limits(), outside);
    }
    for (risk, outside) in [(0, true), (1, false), (5_000, false), (5_001, true)] {
        assert_eq!(rt; Listing { risk, ..LISTING }.outside_limits(), outside);
    }
}

#[test]
fn deals(rt: HostRuntime) {
    for (side, outside) in [(0, true), (1, false), (2, false), (3, true)] {
        assert_eq!(rt; Deal { side, ..DEAL }.outside_limits(), outside);
    }
    for (lots, outside) in [(0, true), (1, false), (2_000_000, false), (2_000_001, true)] {
        assert_eq!(rt; Deal { lots, ..DEAL }.outside_limits(), outside);
    }
    for (price, outside) in [(0, true), (1, false), (400_000, false), (400_001, true)] {
        assert_eq!(rt; Deal { price, ..DEAL }.outside_limits(), outside);
    }
    assert_eq!(rt;
        Deal {
            code: 1_000_000,
            ..DEAL
        }
        .outside_limits(),
        true
    );
}

#[test]
fn repricings(rt: HostRuntime) {
    for (code, price, risk, outside) in [
        (1, 1, 1, false),
        (999_999, 400_000, 5_000, false),
        (0, 1, 1, true),
        (1_000_000, 1, 1, true),
        (1, 0, 1, true),
        (1, 400_001, 1, true),
        (1, 1, 0, true),
        (1, 1, 5_001, true),
    ] {
        assert_eq!(rt; Repricing { code, price, risk }.outside_limits(), outside);
    }
}

#[test]
fn positions_and_counts(rt: HostRuntime) {
    assert_eq!(rt; position_outside(2_000_000, -800_000_000_000), false);
    assert_eq!(rt; position_outside(-2_000_000, 800_000_000_000), false);
    assert_eq!(rt; position_outside(2_000_001, 0), true);
    assert_eq!(rt; position_outside(-2_000_001, 0), true);
    assert_eq!(rt; position_outside(0, 800_000_000_001), true);
    assert_eq!(rt; position_outside(0, -800_000_000_001), true);
    assert_eq!(rt; position_outside(i64::MIN, 0), true);
    for (members, outside) in [(0, true), (1, false), (8, false), (9, true)] {
        assert_eq!(rt; members_outside(members), outside);
    }
    for (length, outside) in [(35, true), (36, false), (65_536, false), (65_537, true)] {
        assert_eq!(rt; file_length_outside(length), outside);
    }
    assert_eq!(rt; series_full(47), false);
    assert_eq!(rt; series_full(48), true);
}

fn four(refusal: u8, section: u8, place: u16, cause: u8) -> RefusalNumbers {
    RefusalNumbers {
        refusal,
        section,
        place,
        cause,
    }
}

#[test]
fn numbers(rt: HostRuntime) {
    let refused = LoadFault::Refused(Section::Marks, 4, Refusal::NotListed);
    assert_eq!(rt; RefusalNumbers::from(refused), four(16, 3, 4, 3));
    assert_eq!(rt;
        RefusalNumbers::from(LoadFault::OutsideLimits(Section::Deals, 15)),
        four(15, 2, 15, 5)
    );
    assert_eq!(rt;
        RefusalNumbers::from(LoadFault::BrokenEntry(Section::Series)),
        four(14, 1, 0, 0)
    );
    assert_eq!(rt;
        RefusalNumbers::from(LoadFault::FileLength),
        four(14, 0, 0, 0)
    );
    assert_eq!(rt;
        RefusalNumbers::from(Err(LoadFault::WrongStage)),
        four(8, 0, 0, 0)
    );
    assert_eq!(rt;
        RefusalNumbers::from(Ok::<(), LoadFault>(())),
        four(0, 0, 0, 0)
    );
    assert_eq!(rt;
        RefusalNumbers::from(Refusal::TotalsTooLarge),
        four(10, 0, 0, 0)
    );
}

#[test]
fn markets_and_sides(rt: HostRuntime) {
    for (number, known) in [(0, false), (1, true), (3, true), (4, false)] {
        assert_eq!(rt; Market::try_from(number).is_ok(), known);
    }
    for (number, known) in [(0, false), (1, true), (2, true), (3, false)] {
        assert_eq!(rt; Side::try_from(number).is_ok(), known);
    }
    assert_eq!(rt; Market::try_from(2), Ok(Market::Gas));
    assert_eq!(rt; Side::try_from(2), Ok(Side::Sale));
}

#[test]
fn checked_fields(rt: HostRuntime) -> Result<(), Fail> {
    assert_eq!(rt; Checked::new(LISTING)?.market(), Market::Electricity);
    assert_eq!(rt; Checked::new(Deal { side: 2, ..DEAL })?.side(), Side::Sale);
    assert!(rt; Checked::new(Deal { side: 3, ..DEAL }) == Err(Refusal::FieldOutsideLimits));
    let checked = Checked::new(DEAL)?;
    assert!(rt; checked.clone()? == checked);
    Ok(())
}
