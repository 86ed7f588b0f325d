ghost use Rattle.std.specs.Prelude.{◌≡◌, Some, None};
ghost use Rattle.monoid.specs.Lamps.{no_lamps};
ghost use Rattle.plain.specs.Refusals.{number_of};

use monoid::lamps::Lamps;
use plain::refusal::Refusal;

// What a call came to: a refusal, if there is one; the lamps, where it asked for them; and how many products it asked
// of the recogniser. Refusal and lamps stand side by side and are no Result: a count goes with either.
#[derive(Clone, Copy)]
pub struct Outcome {
    pub refusal: Option<Refusal>,
    pub lamps: Lamps,
    pub count: u64,
}

impl Outcome {
    // 0 where the call was accepted, else the number of its refusal.
    pub fn number(&self) -> u32
        ensures value { result ≡ number_of self.now.refusal }
    {
        self.refusal.map_or(0, Refusal::number)
    }

    // No lamps, for a refusal or none, and for so many products.
    pub fn dark(refusal: Option<Refusal>, count: u64) -> Outcome
        ensures value { result ≡ record { refusal = refusal; lamps = no_lamps; count = count } }
    {
        Outcome {
            refusal,
            lamps: Lamps::none(),
            count,
        }
    }

    // An accepted question, for so many products.
    pub fn lit(lamps: Lamps, count: u64) -> Outcome
        ensures value { result ≡ record { refusal = None; lamps = lamps; count = count } }
    {
        Outcome {
            refusal: None,
            lamps,
            count,
        }
    }
}
