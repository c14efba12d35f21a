// What the tests on a book begin with.
use book::state::Book;
use ledger::deal::Deal;
use ledger::listing::Listing;
use sharing::refusal::Refusal;

pub(crate) const LISTING: Listing = Listing {
    code: 101,
    market: 1,
    size: 10,
    price: 20_000,
    risk: 1_000,
};

// 600 MWh for 10,800,000 grosze
pub(crate) const DEAL: Deal = Deal {
    code: 101,
    seat: 1,
    side: 1,
    lots: 60,
    price: 18_000,
};

// A book of three members that holds one series, of lots of that size.
pub(crate) fn one_series(size: u16) -> Result<Book, Refusal> {
    let mut book = Book::new();
    book.opening(3)?;
    book.listing(Listing { size, ..LISTING })?;
    Ok(book)
}
