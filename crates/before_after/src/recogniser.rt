ghost use Rattle.std.specs.Prelude.{◌≡◌, ◌+◌, ◌%◌, ◌^◌, true};
ghost use Rattle.monoid.specs.Asking.{exactly, AskedFor};
ghost use Rattle.before_after.specs.BeforeAfter.{marked_pairs, row_lit, some_lit, before_and_after};
ghost use Rattle.monoid.specs.Words.{Recognises};
ghost use Rattle.monoid.specs.Laws.{Lawful};
ghost use Rattle.before_after.specs.Marked.{Marked};
ghost use Rattle.before_after.specs.Laws;
ghost use Rattle.std.proofs.Common.{rules};

use crate::action::{acted_pairs, index_lit};
use crate::split::Split;
use monoid::recogniser::Recogniser;
use monoid::small::SmallRecogniser;
use monoid::tally::Tally;
use pairs::member::Member;
use pairs::pair_set::PairSet;
use rows::kind::{KINDS, Kind};

// The words in which some marked row has a word of one recogniser before it, and a word of another after it.
#[derive(Drop)]
pub struct BeforeAfter<P, S> {
    before: P,
    after: S,
    marks: [bool; KINDS],
    tally: Tally,
}

impl<P: SmallRecogniser, S: SmallRecogniser> BeforeAfter<P, S> {
    // The kinds are marked by their places. It is in order when both below it are, keeps the laws then, and recognises
    // the words that a marked row parts into a word of the one below and a word of the other.
    pub fn new(before: P, after: S, marks: [bool; KINDS]) -> BeforeAfter<P, S>
        ensures below { (result.before ≡ before) × (result.after ≡ after) }
        ensures marks { result.marks ≡ marks }
        ensures counted { result.tally.count ≡ 0 }
        ensures meaning { ⟦<BeforeAfter<P, S> as Recogniser>⟧.meaning result ≡ before_and_after (P.meaning before) (P.small before) (S.meaning after) (S.small after) marks }
        ensures order { P.orderly before → S.orderly after → P.orderly result.before × S.orderly result.after }
        ensures laws { P.orderly before → S.orderly after → Lawful (before_and_after (P.meaning result.before) (P.small result.before) (S.meaning result.after) (S.small result.after) result.marks) }
        ensures language { P.orderly before → S.orderly after → Recognises (before_and_after (P.meaning result.before) (P.small result.before) (S.meaning result.after) (S.small result.after) result.marks) 0 (Marked (P.meaning before) (S.meaning after) marks) }
    {
        BeforeAfter {
            before,
            after,
            marks,
            tally: Tally::new(),
        }
    }

    // The pair of the units where a kind is marked: nothing before it, and nothing after it.
    fn marked_pairs(&self, kind: Kind) -> PairSet
        ensures value { P.orderly self.now.before → S.orderly self.now.after → result ≡ marked_pairs (P.meaning self.now.before) (P.small self.now.before) (S.meaning self.now.after) (S.small self.now.after) self.now.marks kind }
    {
        if self.marks[kind.place()] {
            let first = self.before.index(self.before.unit());
            let second = self.after.index(self.after.unit());
            PairSet::single(first, second)
        } else {
            PairSet::empty()
        }
    }

    // Whether the index `first` has a lit one after it in some pair.
    fn row_lit(&self, pairs: PairSet, first: usize) -> bool
        ensures value { S.orderly self.now.after → result ≡ row_lit (S.meaning self.now.after) (S.small self.now.after) pairs first }
    {
        let after = &self.after;
        (0..after.order()).any(|second| index_lit(after, second) && pairs.has(first, second))
    }

    // Whether some pair has both sides lit.
    fn some_lit(&self, pairs: PairSet) -> bool
        ensures value { P.orderly self.now.before → S.orderly self.now.after → result ≡ some_lit (P.meaning self.now.before) (P.small self.now.before) (S.meaning self.now.after) (S.small self.now.after) pairs }
    {
        let before = &self.before;
        (0..before.order()).any(|first| index_lit(before, first) && self.row_lit(pairs, first))
    }
}

impl<P: SmallRecogniser, S: SmallRecogniser> Recogniser for BeforeAfter<P, S> {
    type Element = Split<P::Element, S::Element>;

    ghost meaning = { λ s. before_and_after (P.meaning s.before) (P.small s.before) (S.meaning s.after) (S.small s.after) s.marks };

    ghost tally = { λ s. s.tally.count };

    ghost orderly = { λ s. P.orderly s.before × S.orderly s.after };

    ghost shaped = { Prim.search rules };

    ghost lawful = { λ s o.
        Laws.lawful
        (P.lawful s.before o.0) (P.undone s.before o.0) (P.sized s.before)
        (S.lawful s.after o.1) (S.undone s.after o.1) (S.sized s.after)
        s.marks };

    ghost bounded = { Prim.search rules };

    fn unit(&self) -> Split<P::Element, S::Element> {
        Split {
            before: self.before.unit(),
            pairs: PairSet::empty(),
            after: self.after.unit(),
        }
    }

    fn image(&self, kind: Kind) -> Split<P::Element, S::Element> {
        Split {
            before: self.before.image(kind),
            pairs: self.marked_pairs(kind),
            after: self.after.image(kind),
        }
    }

    // Each side is asked for one product, and for one more at each of its elements, of which there are eight at the most.
    // Were there more, a pile of layers would cost many times as many with each.
    fn product(
        &mut self,
        left: Split<P::Element, S::Element>,
        right: Split<P::Element, S::Element>,
    ) -> Split<P::Element, S::Element>
        ensures value { let m = before_and_after (P.meaning self.old.before) (P.small self.old.before) (S.meaning self.old.after) (S.small self.old.after) self.old.marks in P.orderly self.old.before × S.orderly self.old.after → m.sound left ≡ true → m.sound right ≡ true → result ≡ m.mul left right }
        ensures same { before_and_after (P.meaning self.new.before) (P.small self.new.before) (S.meaning self.new.after) (S.small self.new.after) self.new.marks ≡ before_and_after (P.meaning self.old.before) (P.small self.old.before) (S.meaning self.old.after) (S.small self.old.after) self.old.marks }
        ensures order { P.orderly self.old.before × S.orderly self.old.after → P.orderly self.new.before × S.orderly self.new.after }
        ensures counted { self.new.tally.count ≡ (self.old.tally.count + 1) % 2 ^ 64 }
        ensures before { AskedFor P.meaning P.orderly P.tally (exactly ((P.small self.old.before).order + 1)) self.old.before self.new.before }
        ensures after { AskedFor S.meaning S.orderly S.tally (exactly ((S.small self.old.after).order + 1)) self.old.after self.new.after }
    {
        self.tally.raise();
        let later = acted_pairs(&mut self.before, Member::First, left.before, right.pairs);
        let earlier = acted_pairs(&mut self.after, Member::Second, right.after, left.pairs);
        Split {
            before: self.before.product(left.before, right.before),
            pairs: later.join(earlier),
            after: self.after.product(left.after, right.after),
        }
    }

    fn asked(&self) -> u64 {
        self.tally.value()
    }

    fn width(&self) -> usize {
        1
    }

    fn lit(&self, element: Split<P::Element, S::Element>, lamp: usize) -> bool {
        lamp == 0 && self.some_lit(element.pairs)
    }
}
