// Claims: who they belong to, and what they weigh and get.
ghost use Rattle.std.specs.Prelude.{◌≡◌, ℕ};
ghost use Rattle.std.proofs.Common.{rules};

use std::marker::PhantomData;

// A claim that tells, by a whole number, who it belongs to.
pub trait Owned {
    ghost holder: { Self → ℕ };

    fn owner(&self) -> u64
        ensures { result ≡ holder self.now };
}

// What weighs something, in whole numbers.
pub trait Weighed {
    ghost weighs: { Self → ℕ };

    fn weight(&self) -> u64
        ensures { result ≡ weighs self.now };
}

// A number is its own weight.
impl Weighed for u64 {
    ghost weighs = { λ n. n };

    fn weight(&self) -> u64 {
        *self
    }
}

// A claim with a weight and a share. A share that is set changes neither its owner nor its weight.
pub trait WeighedClaim: Owned + Weighed + Copy {
    ghost gets: { Self → ℕ };

    ghost given: { Self → ℕ → Self };

    fn share(&self) -> u64
        ensures { result ≡ gets self.now };

    // The claim with this share in the place of its own.
    fn with_share(self, share: u64) -> Self
        ensures { result ≡ given self share };

    ghost keeps_owner: { (c : Self) (n : ℕ) → Self.Owned.holder (given c n) ≡ Self.Owned.holder c };

    ghost keeps_weight: { (c : Self) (n : ℕ) → Self.Weighed.weighs (given c n) ≡ Self.Weighed.weighs c };

    ghost sets_share: { (c : Self) (n : ℕ) → gets (given c n) ≡ n };
}

// The unit of energy in a series.
#[derive(Clone, Copy, PartialEq, Eq, Debug)]
pub struct Mwh;

// The unit of money that is called.
#[derive(Clone, Copy, PartialEq, Eq, Debug)]
pub struct Zloty;

// The claim of a seat: what it weighs in its unit, and what this gets of an amount.
#[derive(Clone, Copy, PartialEq, Eq, Debug)]
pub struct Claim<U> {
    pub seat: u8,
    pub weight: u64,
    pub share: u64,
    pub unit: PhantomData<U>,
}

// The MWh that a member holds in a series, and what these get of a surplus.
pub type Holding = Claim<Mwh>;

// The zloty that a member needs, and what these get of an amount.
pub type Need = Claim<Zloty>;

impl<U> Claim<U> {
    // A claim to which nothing is shared yet.
    pub fn new(seat: u8, weight: u64) -> Self
        ensures { result ≡ record { seat = seat; weight = weight; share = 0; unit = record {} } }
    {
        Claim {
            seat,
            weight,
            share: 0,
            unit: PhantomData,
        }
    }
}

impl<U> Owned for Claim<U> {
    ghost holder = { λ c. c.seat };

    fn owner(&self) -> u64 {
        u64::from(self.seat)
    }
}

impl<U> Weighed for Claim<U> {
    ghost weighs = { λ c. c.weight };

    fn weight(&self) -> u64 {
        self.weight
    }
}

impl<U: Copy> WeighedClaim for Claim<U> {
    ghost gets = { λ c. c.share };

    ghost given = { λ c n. record c { share = n } };

    ghost keeps_owner = { Prim.search rules };

    ghost keeps_weight = { Prim.search rules };

    ghost sets_share = { Prim.search rules };

    fn share(&self) -> u64 {
        self.share
    }

    fn with_share(self, share: u64) -> Self {
        Claim { share, ..self }
    }
}
