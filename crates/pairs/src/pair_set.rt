ghost use Rattle.std.specs.Prelude.{◌≡◌, ℕ, ◌<◌, true, false, ◌&&◌, ◌||◌, ◌==◌};
ghost use Rattle.pairs.specs.Pairs.{holds, none, only, joined, SameMembers};
ghost use Rattle.pairs.specs.Moved.{holds_by, line_moved};

use crate::lines::{Index, is_set, line_as, place};
use crate::member::Member;

// A set of pairs of indexes below eight: the pair (i, j) is bit 8 i + j.
#[derive(Clone, Copy, PartialEq, Eq, Debug)]
pub struct PairSet {
    bits: u64,
}

impl PairSet {
    pub fn empty() -> PairSet
        ensures value { result ≡ none }
        ensures members { (i j : ℕ) → holds result i j ≡ false }
    {
        PairSet { bits: 0 }
    }

    // The set of one pair, and the empty set where one of its members is not below eight.
    pub fn single(first: usize, second: usize) -> PairSet
        ensures value { result ≡ only first second }
        ensures members { (i j : ℕ) → i < 8 → j < 8 → holds result i j ≡ (i == first && j == second) }
    {
        let Some((first, second)) = Index::both(first, second) else {
            return PairSet::empty();
        };
        PairSet {
            bits: 1 << place(first, second),
        }
    }

    pub fn has(self, first: usize, second: usize) -> bool
        ensures value { result ≡ holds self first second }
    {
        let Some((first, second)) = Index::both(first, second) else {
            return false;
        };
        is_set(self.bits, first, second)
    }

    // The pairs of either set.
    pub fn join(self, other: PairSet) -> PairSet
        ensures value { result ≡ joined self other }
        ensures members { (i j : ℕ) → holds result i j ≡ (holds self i j || holds other i j) }
    {
        PairSet {
            bits: self.bits | other.bits,
        }
    }

    // The pairs that have `from` as that member, with `to` in its place; none where one of the two is not below eight.
    pub fn line_moved(self, member: Member, from: usize, to: usize) -> PairSet
        ensures value { result ≡ line_moved member from to self }
        ensures members { (x y : ℕ) → x < 8 → y < 8 → holds_by member result x y ≡ (x == to && holds_by member self from y) }
    {
        let Some((from, to)) = Index::both(from, to) else {
            return PairSet::empty();
        };
        PairSet {
            bits: line_as(self.bits, member, from, to),
        }
    }

    // Whether two sets have the same members: only then are they equal.
    pub fn same_members(self, other: PairSet) -> bool
        ensures only { result ≡ true → self ≡ other }
        ensures every { SameMembers self other → result ≡ true }
    {
        self == other
    }
}
