// Series by their codes.
ghost use Rattle.std.specs.Prelude.{◌≡◌, is_some, take};
ghost use Rattle.ledger.specs.Ledger.{is_listed};
ghost use Rattle.book.specs.Views.{ledger_of};
ghost use Rattle.book.specs.Found.{Found};

use super::state::{Book, Series};

impl Book {
    // The listed series, in listing order.
    fn listed(&self) -> &[Series]
        ensures { result.now ≡ take self.now.count self.now.series }
    {
        &self.series[..self.count]
    }

    // Where the series of a code stands, if it is listed.
    pub(crate) fn find(&self, code: u32) -> Option<usize>
        ensures listed { is_some result ≡ is_listed (ledger_of self.now) code }
        ensures found { Found self.now code result }
    {
        self.listed().iter().position(|s| s.code == code)
    }
}
