// The set-off question on small groups. The rate of the series is price × risk parameter, 20,000 × 1,000, so that the margin
// before set-off is 100,000,000 units an MWh, of which a member on the minor side keeps a fifth.
use super::samples::{DEAL, one_series};
use book::state::Book;
use ledger::deal::Deal;
use ledger::lines::SetOffLine;
use ledger::stage::Event;
use sharing::refusal::Refusal;
use std::test::Fail;

const UNWRITTEN: SetOffLine = SetOffLine {
    seat: 9,
    before: 7,
    after: 8,
};

// A book of three members with one series of 10 MWh a lot, and with these deals in it: seat, side and lots.
fn group(deals: &[(u16, u16, u32)]) -> Result<Book, Refusal> {
    let mut book = one_series(10)?;
    for &(seat, side, lots) in deals {
        book.deal(Deal {
            seat,
            side,
            lots,
            ..DEAL
        })?;
    }
    Ok(book)
}

fn line(seat: u8, before: u64, after: u64) -> SetOffLine {
    SetOffLine {
        seat,
        before,
        after,
    }
}

// 600, -300 and 200 MWh. Seat 2 is spared four fifths of 30,000,000,000, that is 24,000,000,000, which seats 1 and 3 share
// as 600 to 200. A fourth line stays.
#[test]
fn one_seller(rt: HostRuntime) -> Result<(), Fail> {
    let book = group(&[(1, 1, 60), (2, 2, 30), (3, 1, 20)])?;
    let mut lines = [UNWRITTEN; 4];
    assert_eq!(rt; book.set_off(101, &mut lines), Ok(()));
    assert_eq!(rt; lines[0], line(1, 60_000_000_000, 42_000_000_000));
    assert_eq!(rt; lines[1], line(2, 30_000_000_000, 6_000_000_000));
    assert_eq!(rt; lines[2], line(3, 20_000_000_000, 14_000_000_000));
    assert_eq!(rt; lines[3], UNWRITTEN);
    Ok(())
}

// 300, -600 and 0 MWh: the group is short, so that the buyer and the member with nothing are the minor side. The seller
// takes the whole surplus of 24,000,000,000.
#[test]
fn short_group(rt: HostRuntime) -> Result<(), Fail> {
    let mut book = group(&[(1, 1, 30), (2, 2, 60)])?;
    book.turn(Event::Strike)?;
    let mut lines = [UNWRITTEN; 3];
    assert_eq!(rt; book.set_off(101, &mut lines), Ok(()));
    assert_eq!(rt; lines[0], line(1, 30_000_000_000, 6_000_000_000));
    assert_eq!(rt; lines[1], line(2, 60_000_000_000, 36_000_000_000));
    assert_eq!(rt; lines[2], line(3, 0, 0));
    Ok(())
}

// Everyone is flat: there is nothing to share, and no volume to share it by.
#[test]
fn flat_group(rt: HostRuntime) -> Result<(), Fail> {
    let book = group(&[])?;
    let mut lines = [UNWRITTEN; 3];
    assert_eq!(rt; book.set_off(101, &mut lines), Ok(()));
    assert_eq!(rt; lines[0], line(1, 0, 0));
    assert_eq!(rt; lines[1], line(2, 0, 0));
    assert_eq!(rt; lines[2], line(3, 0, 0));
    Ok(())
}

// A code that is not listed is found before lines that are too few; either leaves the lines as they were.
#[test]
fn refused_questions(rt: HostRuntime) -> Result<(), Fail> {
    let book = group(&[(1, 1, 60), (2, 2, 30), (3, 1, 20)])?;
    let mut lines = [UNWRITTEN; 2];
    assert_eq!(rt; book.set_off(102, &mut lines), Err(Refusal::NotListed));
    assert_eq!(rt; book.set_off(101, &mut lines), Err(Refusal::TooLittleRoom));
    assert_eq!(rt; lines[0], UNWRITTEN);
    assert_eq!(rt; lines[1], UNWRITTEN);
    Ok(())
}
