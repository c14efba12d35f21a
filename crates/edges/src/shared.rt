// The sharing call.
use sharing::claims::{Holding, Need, WeighedClaim};
use sharing::refusal::Refusal;
use sharing::sharing::share_out;
use std::array;
use std::test::Fail;

// Sixty-five needs of one zloty, of the owners 0 to 64, with a share of 7 from before.
fn sixty_five() -> [Need; 65] {
    array::from_fn(|owner| Need::new(owner as u8, 1).with_share(7))
}

// The running shares of 3 over 2, 1, 2 are 6/5, 9/5 and 15/5, so 1, 1 and 3.
#[test]
fn three_over_five(rt: HostRuntime) -> Result<(), Fail> {
    let mut claims = [Holding::new(1, 2), Holding::new(2, 1), Holding::new(3, 2)];
    share_out(&mut claims, 3)?;
    assert_eq!(rt; claims[0].share, 1);
    assert_eq!(rt; claims[1].share, 0);
    assert_eq!(rt; claims[2].share, 2);
    assert_eq!(rt; claims[2].seat, 3);
    assert_eq!(rt; claims[2].weight, 2);
    Ok(())
}

#[test]
fn nothing_to_share_by(rt: HostRuntime) {
    let mut claims = [Need::new(1, 0).with_share(7), Need::new(2, 0).with_share(9)];
    assert_eq!(rt; share_out(&mut claims, 1), Err(Refusal::CannotShare));
    assert_eq!(rt; u8::from(Refusal::CannotShare), 11);
    assert_eq!(rt; claims[0].share, 7);
    assert_eq!(rt; claims[1].share, 9);
    assert_eq!(rt; share_out(&mut claims, 0), Ok(()));
    assert_eq!(rt; claims[0].share, 0);
    assert_eq!(rt; claims[1].share, 0);
}

#[test]
fn no_claims(rt: HostRuntime) {
    let mut claims: [Need; 0] = [];
    assert_eq!(rt; share_out(&mut claims, 0), Ok(()));
    assert_eq!(rt; share_out(&mut claims, 1), Err(Refusal::CannotShare));
}

#[test]
fn one_claim(rt: HostRuntime) -> Result<(), Fail> {
    let mut claims = [Need::new(1, 5)];
    share_out(&mut claims, 100_000_000_000_000_000)?;
    assert_eq!(rt; claims[0].share, 100_000_000_000_000_000);
    assert_eq!(rt;
        share_out(&mut claims, 100_000_000_000_000_001),
        Err(Refusal::CannotShare)
    );
    assert_eq!(rt; claims[0].share, 100_000_000_000_000_000);
    Ok(())
}

// Weights whose sum would wrap to 0, or to a small number.
#[test]
fn largest_weights(rt: HostRuntime) {
    let mut one = [Need::new(1, u64::MAX).with_share(7)];
    assert_eq!(rt; share_out(&mut one, 1), Err(Refusal::CannotShare));
    assert_eq!(rt; one[0].share, 7);
    let mut wraps = [Need::new(1, u64::MAX), Need::new(2, 1)];
    assert_eq!(rt; share_out(&mut wraps, 0), Err(Refusal::CannotShare));
    let mut wraps_on = [
        Need::new(1, u64::MAX),
        Need::new(2, u64::MAX),
        Need::new(3, 3),
    ];
    assert_eq!(rt; share_out(&mut wraps_on, 1), Err(Refusal::CannotShare));
}

// By the whole of 3,000,000,000 the amount 10^17 has the quotient 33,333,333 and the remainder 1,000,000,000, so a
// weight of 1 gets 33,333,333 and the rest goes to the other.
#[test]
fn weights_at_their_limit(rt: HostRuntime) -> Result<(), Fail> {
    let mut claims = [Need::new(1, 1), Need::new(2, 2_999_999_999)];
    share_out(&mut claims, 100_000_000_000_000_000)?;
    assert_eq!(rt; claims[0].share, 33_333_333);
    assert_eq!(rt; claims[1].share, 99_999_999_966_666_667);
    let mut heavier = [Need::new(1, 2), Need::new(2, 2_999_999_999)];
    assert_eq!(rt; share_out(&mut heavier, 1), Err(Refusal::CannotShare));
    assert_eq!(rt; heavier[1].share, 0);
    Ok(())
}

// The running share of the first i is the whole part of 64 i / 65, which is i - 1.
#[test]
fn many_claims(rt: HostRuntime) -> Result<(), Fail> {
    let mut claims = sixty_five();
    share_out(&mut claims, 64)?;
    assert_eq!(rt; claims[0].share, 0);
    for claim in &claims[1..] {
        assert_eq!(rt; claim.share, 1);
    }
    Ok(())
}

#[test]
fn equal_owners_far_apart(rt: HostRuntime) {
    let mut claims = sixty_five();
    claims[64].seat = 0;
    assert_eq!(rt; share_out(&mut claims, 65), Err(Refusal::CannotShare));
    assert_eq!(rt; share_out(&mut claims, 0), Err(Refusal::CannotShare));
    assert_eq!(rt; claims[0].share, 7);
    assert_eq!(rt; claims[64].share, 7);
}

#[test]
fn equal_owners_of_nothing(rt: HostRuntime) {
    let mut claims = [
        Holding::new(4, 0).with_share(7),
        Holding::new(4, 0).with_share(8),
    ];
    assert_eq!(rt; share_out(&mut claims, 0), Err(Refusal::CannotShare));
    assert_eq!(rt; claims[0].share, 7);
    assert_eq!(rt; claims[1].share, 8);
}
