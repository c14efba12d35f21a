// How the checklist prints its tables: line by line, so that where no more can be written the lines before are out.
use super::division::{Division, Part};
use std::{fmt, io};

// The columns of a line: need, share and call.
impl fmt::Display for Part {
    fn fmt<W: fmt::Write>(&self, f: &mut fmt::Formatter<W>) -> fmt::Result {
        let Part { need, share, call } = self;
        write!(f, "{need:>12}{share:>12}{call:>12}")
    }
}

// The needs, shares and calls of the seats in zloty, with their sums.
pub(crate) fn print_division(rt: &HostRuntime, division: &Division) -> io::Result<()> {
    let Division {
        parts,
        needed,
        shared,
        called,
    } = division;
    println!(rt; "  seat        need       share        call")?;
    for (place, part) in parts.iter().enumerate() {
        let seat = place + 1;
        println!(rt; "{seat:>6}{part}")?;
    }
    println!(rt; "   sum{needed:>12}{shared:>12}{called:>12}")?;
    println!(rt; "")
}

// The order in which the seats take their turns.
pub(crate) fn print_order(rt: &HostRuntime, seats: &[u8; 8]) -> io::Result<()> {
    print!(rt; "By the sequence")?;
    for seat in seats {
        print!(rt; " {seat}")?;
    }
    println!(rt; "")
}
