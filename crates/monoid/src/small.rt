ghost use Rattle.std.specs.Prelude.{◌≡◌, ℕ, ◌<◌, true};
ghost use Rattle.monoid.specs.Small.{Small, Sized, Undone};

use crate::recogniser::Recogniser;

// A recogniser of at most eight elements, which have indexes from 0.
//
// What it answers at an index that is not below the order is free.
pub trait SmallRecogniser: Recogniser {
    ghost small: { Self → Small Self.Element };

    fn order(&self) -> usize
        ensures value { result ≡ (small self.now).order };

    fn index(&self, element: Self::Element) -> usize
        ensures value { Self.orderly self.now → (Self.meaning self.now).sound element ≡ true → result ≡ (small self.now).index element };

    fn element(&self, index: usize) -> Self::Element
        ensures value { Self.orderly self.now → index < (small self.now).order → result ≡ (small self.now).element index };

    ghost sized: { (s : Self) → Sized (small s) };

    ghost undone: { (s : Self) → Self.orderly s → Undone (Self.meaning s) (small s) };

    // The indexes belong to the meaning: a product, which keeps the meaning, keeps them too.
    ghost steady: { (s t : Self) → Self.meaning s ≡ Self.meaning t → small s ≡ small t };
}
