// The questions: they are allowed in both stages, and change nothing.
ghost use Rattle.std.specs.Prelude.{◌≡◌, ◌≤◌, length};
ghost use Rattle.ledger.specs.Margins.{over_lines};
ghost use Rattle.ledger.specs.Checks.{decided};
ghost use Rattle.ledger.specs.Calls.{position, position_checks, position_figures, position_answer, set_off, set_off_checks, set_off_held, set_off_answer};
ghost use Rattle.ledger.specs.Runs.{Turned};
ghost use Rattle.book.specs.Views.{ledger_of};
ghost use Rattle.book.specs.SettingOff.{line_of};

use super::set_off::Margin;
use super::state::Book;
use ledger::limits::SEATS;
use ledger::lines::SetOffLine;
use sharing::refusal::Refusal;

impl Book {
    // Writes a line for each member of the book, in seat order. Further lines stay as they are.
    fn write_members(&self, margins: &[Margin; SEATS], lines: &mut [SetOffLine])
        requires { self.now.members ≤ length lines.old }
        ensures { lines.new ≡ over_lines self.now.members (line_of margins.now) lines.old }
    {
        let count = self.members.count();
        for (place, line) in lines[..count].iter_mut().enumerate() {
            *line = margins[place].line(place);
        }
    }

    // The net volume in MWh and the net cost in grosze of a seat in the series of a code. Two signed numbers, as the
    // question's answer is.
    pub fn position(&self, seat: u16, code: u32) -> Result<(i64, i64), Refusal>
        ensures answers { result ≡ decided (position_checks (ledger_of self.now) seat code) (position_figures (ledger_of self.now) seat code) }
        ensures turned { Turned (ledger_of self.now) (position seat code) (position_answer result) (ledger_of self.now) }
    {
        let seat = self.seat(seat)?;
        let Some(place) = self.find(code) else {
            return Err(Refusal::NotListed);
        };
        let held = self.series[place].position_of(seat);
        Ok((held.volume, held.cost))
    }

    // The initial margins of the members in the series of a code, before and after set-off: one line a member, in seat
    // order. Further lines stay as they are, and where it is refused all lines do.
    pub fn set_off(&self, code: u32, lines: &mut [SetOffLine]) -> Result<(), Refusal>
        ensures answers { result ≡ decided (set_off_checks (ledger_of self.now) code lines.old) tt }
        ensures writes { lines.new ≡ set_off_held (ledger_of self.now) code lines.old }
        ensures turned { Turned (ledger_of self.now) (set_off code lines.old) (set_off_answer result lines.new) (ledger_of self.now) }
    {
        let Some(place) = self.find(code) else {
            return Err(Refusal::NotListed);
        };
        if lines.len() < self.members.count() {
            return Err(Refusal::TooLittleRoom);
        }
        let margins = self.series[place].margins(self.members)?;
        self.write_members(&margins, lines);
        Ok(())
    }
}
