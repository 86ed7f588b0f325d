ghost use Rattle.std.specs.Prelude.{◌≡◌, ◌≤◌, true, nat_lt, slice_index};
ghost use Rattle.checks.specs.Below.{all_below};

use monoid::tally::Tally;
use rows::kind::KINDS;

// A counter whose data have passed the check, or the trivial one.
#[derive(Drop)]
pub struct Counter {
    pub(crate) modulus: u32,
    pub(crate) weights: [u32; KINDS],
    pub(crate) residue: Option<u32>,
    pub(crate) tally: Tally,
    ghost some: { 1 ≤ modulus },
    ghost few: { modulus ≤ 1000000 },
    ghost below: { all_below 8 (λ p. nat_lt (slice_index weights p) modulus) ≡ true },
}
