ghost use Rattle.std.specs.Prelude.{◌≡◌, ◌+◌, ◌%◌, ◌^◌, ◌≤◌, true, min};
ghost use Rattle.monoid.specs.Asking.{exactly, AskedFor};
ghost use Rattle.monoid.specs.Laws.{Lawful};
ghost use Rattle.layers.specs.SideBySide.{side_by_side, Beside};
ghost use Rattle.std.proofs.Common.{rules};

use monoid::lamps::MOST;
use monoid::recogniser::Recogniser;
use monoid::tally::Tally;
use rows::kind::Kind;

// Two recognisers side by side, the left one's lamps first.
#[derive(Drop)]
pub struct SideBySide<X, Y> {
    left: X,
    right: Y,
    tally: Tally,
}

// How many lamps two recognisers show together: what is past the most is cut off.
fn joint_width(left: usize, right: usize) -> usize
    requires { (left ≤ 16) × (right ≤ 16) }
    ensures value { result ≡ min (left + right) 16 }
{
    (left + right).min(MOST)
}

impl<L: Recogniser, R: Recogniser> SideBySide<L, R> {
    // It recognises the languages of both, and is in order when both are.
    #[tactic(auto, using(crate::proofs::Pairing::beside))]
    pub fn new(left: L, right: R) -> SideBySide<L, R>
        ensures value { (result.left ≡ left) × (result.right ≡ right) }
        ensures counted { result.tally.count ≡ 0 }
        ensures meaning { ⟦<SideBySide<L, R> as Recogniser>⟧.meaning result ≡ side_by_side (L.meaning left) (R.meaning right) }
        ensures order { L.orderly left → R.orderly right → L.orderly result.left × R.orderly result.right }
        ensures laws { L.orderly left → R.orderly right → Lawful (side_by_side (L.meaning result.left) (R.meaning result.right)) }
        ensures languages { Beside (side_by_side (L.meaning result.left) (R.meaning result.right)) (L.meaning left) (R.meaning right) }
    {
        SideBySide {
            left,
            right,
            tally: Tally::new(),
        }
    }
}

impl<L: Recogniser, R: Recogniser> Recogniser for SideBySide<L, R> {
    type Element = (L::Element, R::Element);

    ghost meaning = { λ s. side_by_side (L.meaning s.left) (R.meaning s.right) };

    ghost tally = { λ s. s.tally.count };

    ghost orderly = { λ s. L.orderly s.left × R.orderly s.right };

    ghost shaped = { Prim.search rules };

    ghost lawful = { Prim.search rules };

    ghost bounded = { Prim.search rules };

    fn unit(&self) -> (L::Element, R::Element) {
        (self.left.unit(), self.right.unit())
    }

    fn image(&self, kind: Kind) -> (L::Element, R::Element) {
        (self.left.image(kind), self.right.image(kind))
    }

    // One product of each side: were it two, a pile of layers would cost twice as many with each.
    fn product(
        &mut self,
        left: (L::Element, R::Element),
        right: (L::Element, R::Element),
    ) -> (L::Element, R::Element)
        ensures value { let m = side_by_side (L.meaning self.old.left) (R.meaning self.old.right) in L.orderly self.old.left × R.orderly self.old.right → m.sound left ≡ true → m.sound right ≡ true → result ≡ m.mul left right }
        ensures same { side_by_side (L.meaning self.new.left) (R.meaning self.new.right) ≡ side_by_side (L.meaning self.old.left) (R.meaning self.old.right) }
        ensures order { L.orderly self.old.left × R.orderly self.old.right → L.orderly self.new.left × R.orderly self.new.right }
        ensures counted { self.new.tally.count ≡ (self.old.tally.count + 1) % 2 ^ 64 }
        ensures left { AskedFor L.meaning L.orderly L.tally (exactly 1) self.old.left self.new.left }
        ensures right { AskedFor R.meaning R.orderly R.tally (exactly 1) self.old.right self.new.right }
    {
        self.tally.raise();
        let first = self.left.product(left.0, right.0);
        let second = self.right.product(left.1, right.1);
        (first, second)
    }

    fn asked(&self) -> u64 {
        self.tally.value()
    }

    fn width(&self) -> usize {
        joint_width(self.left.width(), self.right.width())
    }

    fn lit(&self, element: (L::Element, R::Element), lamp: usize) -> bool {
        let first = self.left.width();
        if lamp < first {
            self.left.lit(element.0, lamp)
        } else {
            lamp < MOST && self.right.lit(element.1, lamp - first)
        }
    }
}
