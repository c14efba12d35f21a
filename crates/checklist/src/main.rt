// The checklist that a field engineer runs when a module is put into service. It divides one group's surplus by two
// rules, and shows that a change of the rule moves no total. A check that fails ends the program with status 1.
#![tactic(auto)]

mod division;
mod failure;
mod offset;
mod sample;
mod tables;

use anyhow::anyhow;
use division::{divide_by_both, same_totals};
use failure::Failure;
use rules::proportion::Proportion;
use rules::sequence::Sequence;
use tables::{print_division, print_order};

// The group of the check: its needs in zloty by seat, its surplus, and the sequence that it agreed on.
const NEEDS: [u64; 8] = [0, 1200, 4800, 0, 0, 0, 0, 0];

const SURPLUS: u64 = 3600;

const ORDER: [u8; 8] = [2, 3, 1, 4, 5, 6, 7, 8];

// Divides the surplus by both rules, prints both divisions, and fails where a total differs.
fn check_division(rt: &HostRuntime) -> Result<(), Failure> {
    let mut sequence = Sequence::new();
    sequence.reorder(&ORDER)?;
    let (proportional, sequential) = divide_by_both(&Proportion, &sequence, &NEEDS, SURPLUS)?;
    println!(rt; "In proportion to the needs")?;
    print_division(rt, &proportional)?;
    print_order(rt, &sequence.seats())?;
    print_division(rt, &sequential)?;
    if !same_totals(&proportional, &sequential) {
        return Err(Failure::TotalMoved);
    }
    let shared = sequential.shared;
    let called = sequential.called;
    println!(rt; "PASSED: divided one surplus of {SURPLUS} zloty by two rules;")?;
    println!(rt;
        "by both the shares sum to {shared} and the calls to {called}: changing the rule moves no total"
    )?;
    Ok(())
}

fn run(rt: &HostRuntime) -> Result<(), Failure> {
    println!(rt; "Checklist of the group margin module")?;
    println!(rt; "")?;
    println!(rt; "1. Division of a surplus of {SURPLUS} zloty")?;
    println!(rt; "")?;
    check_division(rt)
}

fn main(rt: HostRuntime) -> anyhow::Result<()> {
    match run(&rt) {
        Ok(()) => Ok(()),
        Err(Failure::Output(error)) => Err(error.into()),
        Err(failure) => {
            println!(rt; "FAILED: {failure}")?;
            Err(anyhow!("a check failed"))
        }
    }
}
