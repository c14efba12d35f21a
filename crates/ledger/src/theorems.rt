// What is proved of the definitions, for every case of theirs: the contract of each function here is a law, and nobody need
// call it.
ghost use Rattle.ledger.specs.Theorems.{KindsNumbered, MajorsCover, AlwaysVolume, SetOffLaw, CallsObey, RunsObey, RunsTell, Begins, GoesOn, LedgersFit, DealsFit, SharesFit};
ghost use Rattle.ledger.specs.Worked.{WorkedByHand};

// A number within its limits is that of one market, and of one side.
pub fn kinds_stand()
    ensures { KindsNumbered }
{}

// The majors' volume is at least the minors', for every list of volumes, so that a surplus always has volume to take it.
pub fn majors_cover()
    ensures volume { MajorsCover }
    ensures always { AlwaysVolume }
{}

// In each series the margins after set-off sum to exactly one fifth of the gross and four fifths of the net margin, and a
// member keeps at least a fifth of his margin and at most all of it.
pub fn set_off_stands()
    ensures { SetOffLaw }
{}

// A margin call by any lawful rule: no call exceeds what the member would owe alone, and in units the total is at least
// what the group owes, and exceeds it, or zero, by under a zloty a member.
pub fn calls_obey()
    ensures { CallsObey }
{}

// Every run whose answers are right keeps to these laws in every answered margin call, each with a lawful rule of its own,
// and its ledger is what the accepted calls tell; a book that was never opened has gone through the empty run, and any run
// goes on with a call that answers and changes as the definitions say.
pub fn runs_stand()
    ensures obey { RunsObey }
    ensures tell { RunsTell }
    ensures begins { Begins }
    ensures goes_on { GoesOn }
{}

// Within the limits the figures of the calls, and what is worked out on the way to them, fit 64 bits.
pub fn figures_fit()
    ensures ledgers { LedgersFit }
    ensures deals { DealsFit }
    ensures shares { SharesFit }
{}

// The examples that were worked out by hand follow from the definitions.
pub fn examples_stand()
    ensures { WorkedByHand }
{}
