ghost use Rattle.std.specs.Prelude.{◌≡◌, ◌<◌};
ghost use Rattle.rows.specs.Places.{place};
ghost use Rattle.dice.specs.Draws.{after, drawn};

use rows::kind::Kind;

// A generator of numbers, by the state that it is in.
#[derive(Clone, Copy, PartialEq, Eq, Debug)]
pub struct Dice {
    pub state: u32,
}

impl Dice {
    pub fn new(seed: u32) -> Dice
        ensures value { result.state ≡ seed }
    {
        Dice { state: seed }
    }

    // A number below a bound, or 0 where there is none.
    pub fn below(&mut self, bound: u16) -> u16
        ensures value { result ≡ drawn bound self.old.state }
        ensures below { 0 < bound → result < bound }
        ensures after { self.new.state ≡ after self.old.state }
    {
        self.state = self
            .state
            .wrapping_mul(1_664_525)
            .wrapping_add(1_013_904_223);
        let high = (self.state >> 16) as u16;
        high.checked_rem(bound).unwrap_or(0)
    }

    // A kind of row.
    pub fn kind(&mut self) -> Kind
        ensures value { place result ≡ drawn 8 self.old.state }
        ensures after { self.new.state ≡ after self.old.state }
    {
        Kind::at(usize::from(self.below(8))).unwrap_or(Kind::Heading)
    }
}
