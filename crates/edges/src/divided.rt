// The division rules.
use rules::proportion::Proportion;
use rules::rule::DivisionRule;
use rules::sequence::Sequence;
use sharing::refusal::Refusal;
use std::test::Fail;

// 3,600 of 6,000 zloty needed is three fifths.
#[test]
fn three_fifths_in_proportion(rt: HostRuntime) {
    let needs = [0, 1200, 4800, 0, 0, 0, 0, 0];
    assert_eq!(rt;
        Proportion.divide(&needs, 3600),
        Ok([0, 720, 2880, 0, 0, 0, 0, 0])
    );
}

#[test]
fn by_another_order(rt: HostRuntime) -> Result<(), Fail> {
    let needs = [0, 1200, 4800, 0, 0, 0, 0, 0];
    let mut sequence = Sequence::new();
    sequence.reorder(&[2, 3, 1, 4, 5, 6, 7, 8])?;
    assert_eq!(rt;
        sequence.divide(&needs, 3600),
        Ok([0, 1200, 2400, 0, 0, 0, 0, 0])
    );
    Ok(())
}

// In order, seats 1 to 3 get their needs of 1, 2 and 3, and seat 4 the last 4 of 10 against a need of 5. Backward, seat 8
// gets its need of 6, and seat 7 the last 3 of 9.
#[test]
fn by_order_and_backward(rt: HostRuntime) -> Result<(), Fail> {
    let needs = [1, 2, 3, 5, 1, 1, 4, 6];
    let mut sequence = Sequence::new();
    assert_eq!(rt; sequence.seats(), [1, 2, 3, 4, 5, 6, 7, 8]);
    assert_eq!(rt; sequence.divide(&needs, 10), Ok([1, 2, 3, 4, 0, 0, 0, 0]));
    sequence.reorder(&[8, 7, 6, 5, 4, 3, 2, 1])?;
    assert_eq!(rt; sequence.divide(&needs, 9), Ok([0, 0, 0, 0, 0, 0, 3, 6]));
    Ok(())
}

#[test]
fn not_a_full_order(rt: HostRuntime) -> Result<(), Fail> {
    let mut sequence = Sequence::new();
    sequence.reorder(&[8, 1, 2, 3, 4, 5, 6, 7])?;
    assert_eq!(rt;
        sequence.reorder(&[1, 2, 3, 4, 5, 6, 7]),
        Err(Refusal::NotAFullOrder)
    );
    assert_eq!(rt;
        sequence.reorder(&[1, 2, 3, 4, 5, 6, 7, 8, 1]),
        Err(Refusal::NotAFullOrder)
    );
    assert_eq!(rt;
        sequence.reorder(&[1, 2, 3, 4, 5, 6, 7, 8, 9]),
        Err(Refusal::NotAFullOrder)
    );
    assert_eq!(rt;
        sequence.reorder(&[0, 1, 2, 3, 4, 5, 6, 7]),
        Err(Refusal::NotAFullOrder)
    );
    assert_eq!(rt;
        sequence.reorder(&[1, 2, 3, 4, 5, 6, 7, 9]),
        Err(Refusal::NotAFullOrder)
    );
    assert_eq!(rt;
        sequence.reorder(&[1, 2, 3, 4, 5, 6, 7, 7]),
        Err(Refusal::NotAFullOrder)
    );
    assert_eq!(rt; sequence.reorder(&[]), Err(Refusal::NotAFullOrder));
    assert_eq!(rt; u8::from(Refusal::NotAFullOrder), 13);
    assert_eq!(rt; sequence.seats(), [8, 1, 2, 3, 4, 5, 6, 7]);
    Ok(())
}

// Eight needs of 375,000,000 are 3,000,000,000. With one zloty less the running share of the first i is i times
// 375,000,000 less an eighth of i, rounded down: one less each, so only the first share is a zloty short.
#[test]
fn needs_at_their_limit(rt: HostRuntime) {
    let mut needs = [375_000_000; 8];
    assert_eq!(rt; Proportion.divide(&needs, 3_000_000_000), Ok(needs));
    let short = [
        374_999_999,
        375_000_000,
        375_000_000,
        375_000_000,
        375_000_000,
        375_000_000,
        375_000_000,
        375_000_000,
    ];
    assert_eq!(rt; Proportion.divide(&needs, 2_999_999_999), Ok(short));
    assert_eq!(rt; Sequence::new().divide(&needs, 3_000_000_000), Ok(needs));
    assert_eq!(rt;
        Proportion.divide(&needs, 3_000_000_001),
        Err(Refusal::CannotShare)
    );
    assert_eq!(rt;
        Sequence::new().divide(&needs, 3_000_000_001),
        Err(Refusal::CannotShare)
    );
    needs[7] = 375_000_001;
    assert_eq!(rt; Proportion.divide(&needs, 1), Err(Refusal::CannotShare));
    assert_eq!(rt;
        Sequence::new().divide(&needs, 1),
        Err(Refusal::CannotShare)
    );
}

#[test]
fn largest_needs(rt: HostRuntime) {
    let needs = [u64::MAX; 8];
    assert_eq!(rt; Proportion.divide(&needs, 0), Err(Refusal::CannotShare));
    assert_eq!(rt;
        Sequence::new().divide(&needs, 0),
        Err(Refusal::CannotShare)
    );
}

#[test]
fn nothing_needed(rt: HostRuntime) {
    let needs = [0; 8];
    assert_eq!(rt; Proportion.divide(&needs, 0), Ok(needs));
    assert_eq!(rt; Sequence::new().divide(&needs, 0), Ok(needs));
    assert_eq!(rt; Proportion.divide(&needs, 1), Err(Refusal::CannotShare));
    assert_eq!(rt;
        Sequence::new().divide(&needs, 1),
        Err(Refusal::CannotShare)
    );
}
