// The group of the checks on a book: three members with a deal each in one series.
use book::state::Book;
use ledger::deal::Deal;
use ledger::listing::Listing;
use sharing::refusal::Refusal;

pub(crate) const MEMBERS: u16 = 3;

pub(crate) const SERIES: Listing = Listing {
    code: 101,
    market: 1,
    size: 10,
    price: 20_000,
    risk: 1_000,
};

// 600 MWh bought, 300 sold and 200 bought.
pub(crate) const DEALS: [Deal; 3] = [
    Deal {
        code: SERIES.code,
        seat: 1,
        side: 1,
        lots: 60,
        price: 18_000,
    },
    Deal {
        code: SERIES.code,
        seat: 2,
        side: 2,
        lots: 30,
        price: 20_000,
    },
    Deal {
        code: SERIES.code,
        seat: 3,
        side: 1,
        lots: 20,
        price: 21_000,
    },
];

// The book of the group before its deals: nobody holds anything.
pub(crate) fn flat_book() -> Result<Book, Refusal> {
    let mut book = Book::new();
    book.opening(MEMBERS)?;
    book.listing(SERIES)?;
    Ok(book)
}

pub(crate) fn sample_book() -> Result<Book, Refusal> {
    let mut book = flat_book()?;
    for deal in DEALS {
        book.deal(deal)?;
    }
    Ok(book)
}
