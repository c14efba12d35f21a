// The calls of a book: their limits at both edges, the order of their causes, and both stages.
use super::samples::{DEAL, LISTING, one_series};
use book::state::Book;
use ledger::deal::Deal;
use ledger::listing::Listing;
use ledger::repricing::Repricing;
use ledger::stage::Event;
use sharing::refusal::Refusal;
use std::test::Fail;

const REPRICING: Repricing = Repricing {
    code: 101,
    price: 21_000,
    risk: 1_200,
};

#[test]
fn never_opened(rt: HostRuntime) {
    let mut book = Book::new();
    assert_eq!(rt; book.position(1, 101), Err(Refusal::NotListed));
    assert_eq!(rt; book.turn(Event::Reopening), Err(Refusal::WrongStage));
    assert_eq!(rt; book.listing(LISTING), Ok(()));
    assert_eq!(rt; book.deal(DEAL), Ok(()));
    assert_eq!(rt; book.position(1, 101), Ok((600, 10_800_000)));
    assert_eq!(rt;
        book.deal(Deal { seat: 2, ..DEAL }),
        Err(Refusal::NoSuchSeat)
    );
}

#[test]
fn openings(rt: HostRuntime) -> Result<(), Fail> {
    let mut book = one_series(10)?;
    book.deal(DEAL)?;
    for members in [0, 9, 65_535] {
        assert_eq!(rt; book.opening(members), Err(Refusal::MemberCount));
    }
    assert_eq!(rt; book.position(1, 101), Ok((600, 10_800_000)));
    book.turn(Event::Strike)?;
    assert_eq!(rt; book.opening(8), Ok(()));
    assert_eq!(rt; book.position(8, 101), Err(Refusal::NotListed));
    assert_eq!(rt; book.listing(LISTING), Ok(()));
    assert_eq!(rt; book.position(1, 101), Ok((0, 0)));
    assert_eq!(rt; book.opening(1), Ok(()));
    assert_eq!(rt; book.position(2, 101), Err(Refusal::NoSuchSeat));
    Ok(())
}

#[test]
fn listings_at_their_limits(rt: HostRuntime) {
    let outside = Err(Refusal::FieldOutsideLimits);
    let mut book = Book::new();
    for wrong in [
        Listing { code: 0, ..LISTING },
        Listing {
            code: 1_000_000,
            ..LISTING
        },
        Listing {
            market: 0,
            ..LISTING
        },
        Listing {
            market: 4,
            ..LISTING
        },
        Listing { size: 0, ..LISTING },
        Listing {
            size: 8_785,
            ..LISTING
        },
        Listing {
            price: 0,
            ..LISTING
        },
        Listing {
            price: 400_001,
            ..LISTING
        },
        Listing { risk: 0, ..LISTING },
        Listing {
            risk: 5_001,
            ..LISTING
        },
    ] {
        assert_eq!(rt; book.listing(wrong), outside);
    }
    let least = Listing {
        code: 1,
        market: 1,
        size: 1,
        price: 1,
        risk: 1,
    };
    let most = Listing {
        code: 999_999,
        market: 3,
        size: 8_784,
        price: 400_000,
        risk: 5_000,
    };
    assert_eq!(rt; book.listing(least), Ok(()));
    assert_eq!(rt; book.listing(most), Ok(()));
}

#[test]
fn forty_eight_series(rt: HostRuntime) {
    let mut book = Book::new();
    for code in 1..49 {
        assert_eq!(rt; book.listing(Listing { code, ..LISTING }), Ok(()));
    }
    assert_eq!(rt;
        book.listing(Listing {
            code: 49,
            ..LISTING
        }),
        Err(Refusal::BookFull)
    );
    assert_eq!(rt;
        book.listing(Listing {
            code: 48,
            ..LISTING
        }),
        Err(Refusal::ListedAlready)
    );
    assert_eq!(rt;
        book.listing(Listing {
            code: 49,
            price: 400_001,
            ..LISTING
        }),
        Err(Refusal::FieldOutsideLimits)
    );
    assert_eq!(rt; book.deal(Deal { code: 48, ..DEAL }), Ok(()));
    assert_eq!(rt; book.position(1, 48), Ok((600, 10_800_000)));
    assert_eq!(rt; book.position(1, 47), Ok((0, 0)));
    assert_eq!(rt; book.position(1, 49), Err(Refusal::NotListed));
}

// 600 MWh for 10,800,000 grosze bought; 25 lots, 250 MWh at 21,000 for 5,250,000 sold; and 10 lots more, 100 MWh at 20,000 for
// 2,000,000, into another seat.
#[test]
fn purchases_and_sales(rt: HostRuntime) -> Result<(), Fail> {
    let mut book = one_series(10)?;
    book.deal(DEAL)?;
    let sale = Deal {
        side: 2,
        lots: 25,
        price: 21_000,
        ..DEAL
    };
    assert_eq!(rt; book.deal(sale), Ok(()));
    assert_eq!(rt; book.position(1, 101), Ok((350, 5_550_000)));
    let other = Deal {
        seat: 3,
        side: 2,
        lots: 10,
        price: 20_000,
        ..DEAL
    };
    assert_eq!(rt; book.deal(other), Ok(()));
    assert_eq!(rt; book.position(3, 101), Ok((-100, -2_000_000)));
    assert_eq!(rt; book.position(2, 101), Ok((0, 0)));
    assert_eq!(rt; book.position(1, 101), Ok((350, 5_550_000)));
    Ok(())
}

#[test]
fn volume_at_its_limit(rt: HostRuntime) -> Result<(), Fail> {
    let mut book = one_series(1)?;
    let all = Deal {
        lots: 2_000_000,
        price: 1,
        ..DEAL
    };
    let one = Deal {
        lots: 1,
        price: 1,
        ..DEAL
    };
    assert_eq!(rt; book.deal(all), Ok(()));
    assert_eq!(rt; book.position(1, 101), Ok((2_000_000, 2_000_000)));
    assert_eq!(rt; book.deal(one), Err(Refusal::PositionLimits));
    assert_eq!(rt; book.position(1, 101), Ok((2_000_000, 2_000_000)));
    assert_eq!(rt; book.deal(Deal { side: 2, ..all }), Ok(()));
    assert_eq!(rt; book.deal(Deal { side: 2, ..all }), Ok(()));
    assert_eq!(rt; book.position(1, 101), Ok((-2_000_000, -2_000_000)));
    assert_eq!(rt;
        book.deal(Deal { side: 2, ..one }),
        Err(Refusal::PositionLimits)
    );
    assert_eq!(rt; book.position(1, 101), Ok((-2_000_000, -2_000_000)));
    Ok(())
}

// 2,000,000 MWh at 400,000 grosze cost 800,000,000,000. One MWh sold for a grosz leaves 799,999,999,999, so that one bought for two
// would cost a grosz too much, and one bought for one does not.
#[test]
fn cost_at_its_limit(rt: HostRuntime) -> Result<(), Fail> {
    let mut book = one_series(1)?;
    for (seat, side, back, most) in [(1, 1, 2, 800_000_000_000), (2, 2, 1, -800_000_000_000)] {
        let deal = Deal {
            code: 101,
            seat,
            side,
            lots: 2_000_000,
            price: 400_000,
        };
        let volume = if side == 1 { 2_000_000 } else { -2_000_000 };
        assert_eq!(rt; book.deal(deal), Ok(()));
        assert_eq!(rt; book.position(seat, 101), Ok((volume, most)));
        let one = Deal {
            lots: 1,
            price: 1,
            ..deal
        };
        assert_eq!(rt; book.deal(Deal { side: back, ..one }), Ok(()));
        assert_eq!(rt;
            book.deal(Deal { price: 2, ..one }),
            Err(Refusal::PositionLimits)
        );
        assert_eq!(rt; book.deal(one), Ok(()));
        assert_eq!(rt; book.position(seat, 101), Ok((volume, most)));
    }
    Ok(())
}

// The largest deal that its fields allow.
#[test]
fn largest_deal(rt: HostRuntime) -> Result<(), Fail> {
    let mut book = one_series(8_784)?;
    for side in [1, 2] {
        let deal = Deal {
            code: 101,
            seat: 1,
            side,
            lots: 2_000_000,
            price: 400_000,
        };
        assert_eq!(rt; book.deal(deal), Err(Refusal::PositionLimits));
    }
    assert_eq!(rt; book.position(1, 101), Ok((0, 0)));
    Ok(())
}

#[test]
fn seats(rt: HostRuntime) -> Result<(), Fail> {
    let mut book = one_series(10)?;
    assert_eq!(rt; book.deal(Deal { seat: 3, ..DEAL }), Ok(()));
    for seat in [0, 4, 8, 9, 65_535] {
        assert_eq!(rt; book.deal(Deal { seat, ..DEAL }), Err(Refusal::NoSuchSeat));
        assert_eq!(rt; book.position(seat, 101), Err(Refusal::NoSuchSeat));
    }
    assert_eq!(rt; book.position(3, 101), Ok((600, 10_800_000)));
    Ok(())
}

// Of several causes the first in its order is answered: for a deal 8, 5, 2, 3, 7, for a listing 8, 5, 4, 6, for a repricing
// 8, 5, 3, for the position question 2, 3.
#[test]
fn order_of_causes(rt: HostRuntime) -> Result<(), Fail> {
    let mut book = one_series(8_784)?;
    let all = Deal {
        code: 102,
        seat: 4,
        side: 3,
        lots: 2_000_000,
        price: 400_000,
    };
    assert_eq!(rt; book.deal(all), Err(Refusal::FieldOutsideLimits));
    let seated = Deal { side: 1, ..all };
    assert_eq!(rt; book.deal(seated), Err(Refusal::NoSuchSeat));
    assert_eq!(rt;
        book.deal(Deal {
            code: 101,
            ..seated
        }),
        Err(Refusal::NoSuchSeat)
    );
    assert_eq!(rt;
        book.deal(Deal { seat: 3, ..seated }),
        Err(Refusal::NotListed)
    );
    assert_eq!(rt;
        book.deal(Deal {
            code: 101,
            seat: 3,
            ..seated
        }),
        Err(Refusal::PositionLimits)
    );
    let cheap = Listing {
        price: 0,
        ..LISTING
    };
    assert_eq!(rt; book.listing(cheap), Err(Refusal::FieldOutsideLimits));
    assert_eq!(rt; book.listing(LISTING), Err(Refusal::ListedAlready));
    let far = Repricing {
        code: 102,
        ..REPRICING
    };
    assert_eq!(rt;
        book.repricing(Repricing { risk: 0, ..far }),
        Err(Refusal::FieldOutsideLimits)
    );
    assert_eq!(rt; book.repricing(far), Err(Refusal::NotListed));
    assert_eq!(rt; book.position(4, 102), Err(Refusal::NoSuchSeat));
    assert_eq!(rt; book.position(3, 102), Err(Refusal::NotListed));
    book.turn(Event::Strike)?;
    assert_eq!(rt; book.deal(all), Err(Refusal::WrongStage));
    assert_eq!(rt; book.listing(cheap), Err(Refusal::WrongStage));
    assert_eq!(rt;
        book.repricing(Repricing { risk: 0, ..far }),
        Err(Refusal::WrongStage)
    );
    Ok(())
}

// A code outside its limits is a wrong field of a booking, and just not listed in a question.
#[test]
fn codes_that_cannot_be(rt: HostRuntime) -> Result<(), Fail> {
    let mut book = one_series(10)?;
    for code in [0, 1_000_000, 4_294_967_295] {
        assert_eq!(rt;
            book.deal(Deal { code, ..DEAL }),
            Err(Refusal::FieldOutsideLimits)
        );
        assert_eq!(rt;
            book.repricing(Repricing { code, ..REPRICING }),
            Err(Refusal::FieldOutsideLimits)
        );
        assert_eq!(rt; book.position(1, code), Err(Refusal::NotListed));
    }
    Ok(())
}

#[test]
fn both_stages(rt: HostRuntime) -> Result<(), Fail> {
    let mut book = one_series(10)?;
    assert_eq!(rt; book.deal(DEAL), Ok(()));
    assert_eq!(rt; book.repricing(REPRICING), Ok(()));
    assert_eq!(rt; book.position(1, 101), Ok((600, 10_800_000)));
    assert_eq!(rt; book.turn(Event::Reopening), Err(Refusal::WrongStage));
    assert_eq!(rt; book.turn(Event::Strike), Ok(()));
    assert_eq!(rt;
        book.listing(Listing {
            code: 102,
            ..LISTING
        }),
        Err(Refusal::WrongStage)
    );
    assert_eq!(rt; book.deal(DEAL), Err(Refusal::WrongStage));
    assert_eq!(rt; book.repricing(REPRICING), Err(Refusal::WrongStage));
    assert_eq!(rt; book.turn(Event::Strike), Err(Refusal::WrongStage));
    assert_eq!(rt; book.position(1, 101), Ok((600, 10_800_000)));
    assert_eq!(rt; book.turn(Event::Reopening), Ok(()));
    assert_eq!(rt; book.position(1, 101), Ok((600, 10_800_000)));
    assert_eq!(rt; book.deal(DEAL), Ok(()));
    assert_eq!(rt; book.position(1, 101), Ok((1_200, 21_600_000)));
    Ok(())
}
