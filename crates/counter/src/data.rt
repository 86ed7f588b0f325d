ghost use Rattle.std.specs.Prelude.{◌≡◌, nat_lt};
ghost use Rattle.counter.specs.Checks.{modulus_fits, weights_fit, residue_fits, verdict_of};
ghost use Rattle.counter.specs.Verdicts.{Says};

use checks::verdict::{Flaw, Verdict, ask};
use rows::kind::KINDS;

// The largest modulus of a counter.
pub const MOST: u32 = 1_000_000;

// What a counter is made from; it may be wrong.
#[derive(Clone, Copy)]
pub struct CounterData {
    pub modulus: u32,
    // The weight of each kind, by its place.
    pub weights: [u32; KINDS],
    // The sum, modulo the modulus, at which the lamp is lit.
    pub residue: u32,
}

impl CounterData {
    // The first question that is answered no, if any is. Not by the trait `Data`: no data say the trivial counter.
    pub fn check(&self) -> Verdict
        ensures value { result ≡ verdict_of self.now }
        ensures says { Says self.now result }
    {
        self.first_no()
    }

    fn first_no(&self) -> Verdict
        ensures value { result ≡ verdict_of self.now }
    {
        ask(self.modulus_fits(), Flaw::SizeOutOfLimits)?;
        ask(
            self.weights_fit() && self.residue_fits(),
            Flaw::EntryTooLarge,
        )
    }

    fn modulus_fits(&self) -> bool
        ensures value { result ≡ modulus_fits self.now }
    {
        (1..=MOST).contains(&self.modulus)
    }

    fn weights_fit(&self) -> bool
        ensures value { result ≡ weights_fit self.now }
    {
        self.weights.iter().all(|weight| self.below(*weight))
    }

    fn residue_fits(&self) -> bool
        ensures value { result ≡ residue_fits self.now }
    {
        self.below(self.residue)
    }

    // Whether a number is a residue.
    fn below(&self, number: u32) -> bool
        ensures value { result ≡ nat_lt number self.now.modulus }
    {
        number < self.modulus
    }
}
