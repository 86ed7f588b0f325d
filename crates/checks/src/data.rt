ghost use Rattle.std.specs.Prelude.{◌≡◌, true};
ghost use Rattle.checks.specs.Verdicts.{Verdict, accepted, taken};

use crate::verdict::Verdict;

// What a recogniser is made from; it may be wrong.
pub trait Data: Copy {
    ghost verdict: { Self → Verdict };

    // What a verdict says of the data, in words.
    ghost Says: { Self → Verdict → Type 0 };

    ghost trivial_data: { Self };

    // The first question that is answered no, if any is.
    fn check(&self) -> Verdict
        ensures value { result ≡ verdict self.now }
        ensures says { Says self.now result };

    // The data in place of those that are declined.
    fn trivial() -> Self
        ensures value { result ≡ trivial_data };

    ghost trivial_accepted: { accepted (verdict trivial_data) ≡ true };

    // The data themselves, or the trivial ones where the check declines them.
    final fn or_trivial(self) -> Self
        ensures value { result ≡ taken verdict trivial_data self }
        ensures checked { accepted (verdict result) ≡ true }
    {
        if self.check().is_ok() {
            self
        } else {
            Self::trivial()
        }
    }
}
