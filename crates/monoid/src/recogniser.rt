ghost use Rattle.std.specs.Prelude.{◌≡◌, ℕ, ◌+◌, ◌%◌, ◌^◌, ◌<◌, true};
ghost use Rattle.monoid.specs.Meaning.{Meaning};
ghost use Rattle.monoid.specs.Laws.{Shaped, Lawful};

use rows::kind::Kind;

// A finite monoid that recognises languages.
//
// An implementation says what it means by ghost members, shows the laws of that meaning, and answers by it. What it
// answers at an element that is not sound is free.
pub trait Recogniser {
    type Element: Copy;

    ghost meaning: { Self → Meaning Self.Element };

    // The products asked of it, modulo 2^64.
    ghost tally: { Self → ℕ };

    // That it is in order, so that the laws hold and the answers are true.
    ghost orderly: { Self → Type 0 };

    fn unit(&self) -> Self::Element
        ensures value { orderly self.now → result ≡ (meaning self.now).unit };

    fn image(&self, kind: Kind) -> Self::Element
        ensures value { orderly self.now → result ≡ (meaning self.now).image kind };

    // Raises the tally by one, and changes nothing else of what the recogniser means.
    fn product(&mut self, left: Self::Element, right: Self::Element) -> Self::Element
        ensures value { orderly self.old → (meaning self.old).sound left ≡ true → (meaning self.old).sound right ≡ true → result ≡ (meaning self.old).mul left right }
        ensures same { meaning self.new ≡ meaning self.old }
        ensures order { orderly self.old → orderly self.new }
        ensures counted { tally self.new ≡ (tally self.old + 1) % 2 ^ 64 };

    // How many products it was asked for so far, modulo 2^64.
    fn asked(&self) -> u64
        ensures value { result ≡ tally self.now };

    // How many lamps it has.
    fn width(&self) -> usize
        ensures value { result ≡ (meaning self.now).width };

    // Whether an element lights a lamp.
    fn lit(&self, element: Self::Element, lamp: usize) -> bool
        ensures value { orderly self.now → (meaning self.now).sound element ≡ true → result ≡ (meaning self.now).lit element lamp };

    ghost shaped: { (s : Self) → Shaped (meaning s) };

    ghost lawful: { (s : Self) → orderly s → Lawful (meaning s) };

    ghost bounded: { (s : Self) → tally s < 2 ^ 64 };
}
