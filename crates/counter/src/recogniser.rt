ghost use Rattle.std.specs.Prelude.{◌≡◌, ℕ, ◌+◌, ◌%◌, ◌<◌, ◌≤◌};
ghost use Rattle.counter.specs.Meanings.{counter_meaning, counter_from, trivial};
ghost use Rattle.counter.specs.Languages.{Counts};
ghost use Rattle.counter.specs.Laws.{counter_shaped, counter_lawful};
ghost use Rattle.std.proofs.Common.{rules, arith};

use crate::counter::Counter;
use crate::data::CounterData;
use monoid::recogniser::Recogniser;
use monoid::tally::Tally;
use rows::kind::{KINDS, Kind};

// A counter has one lamp.
const WIDTH: usize = 1;

// The sum of no weights.
const NOTHING: u32 = 0;

impl Counter {
    // The counter that the data say, or the trivial one where their check declines them.
    #[tactic(auto, using(crate::proofs::Languages::counter_counts))]
    pub fn new(data: CounterData) -> Counter
        ensures meaning { counter_meaning result ≡ counter_from «data» }
        ensures means { ⟦<Counter as Recogniser>⟧.meaning result ≡ counter_from «data» }
        ensures counts { Counts «data» (counter_meaning result) }
        ensures fresh { result.tally.count ≡ 0 }
    {
        if data.check().is_err() {
            return Counter::trivial();
        }
        Counter {
            modulus: data.modulus,
            weights: data.weights,
            residue: Some(data.residue),
            tally: Tally::new(),
        }
    }

    // The counter that is never lit. No data say it, so counters are not made through `Data`.
    #[tactic(auto, unfolding(checks::specs::Below::all_below))]
    fn trivial() -> Counter
        ensures meaning { counter_meaning result ≡ trivial }
        ensures fresh { result.tally.count ≡ 0 }
    {
        Counter {
            modulus: 1,
            weights: [0; KINDS],
            residue: None,
            tally: Tally::new(),
        }
    }

    // The sum of two residues; the modulus itself is no residue, and what comes of it is free.
    fn sum(&self, left: u32, right: u32) -> u32
        ensures value { left < self.now.modulus → right < self.now.modulus → result ≡ (left + right) % self.now.modulus }
    {
        if left < self.modulus && right < self.modulus {
            let whole = left + right;
            whole % self.modulus
        } else {
            0
        }
    }
}

impl Recogniser for Counter {
    type Element = u32;

    ghost meaning = { counter_meaning };

    ghost tally = { λ s. s.tally.count };

    ghost orderly = { λ _. Unit {0} };

    ghost shaped = { λ s. counter_shaped s };

    ghost lawful = { λ s o. counter_lawful s };

    ghost bounded = { Prim.search rules };

    fn unit(&self) -> u32 {
        NOTHING
    }

    fn image(&self, kind: Kind) -> u32 {
        self.weights[kind.place()]
    }

    fn product(&mut self, left: u32, right: u32) -> u32 {
        self.tally.raise();
        self.sum(left, right)
    }

    fn asked(&self) -> u64 {
        self.tally.value()
    }

    fn width(&self) -> usize {
        WIDTH
    }

    fn lit(&self, element: u32, lamp: usize) -> bool {
        lamp == 0 && self.residue == Some(element)
    }
}
