// What is proved of the shares, for every list of weights and every amount.
ghost use Rattle.sharing.specs.Theorems.{NothingLost, NoneBelowZero, Capped};

// The shares sum to the amount; none is below zero; and where the amount is at most c for each unit of weight, so is
// each share.
pub fn sharing_stands()
    ensures lost { NothingLost }
    ensures below { NoneBelowZero }
    ensures capped { Capped }
{}
