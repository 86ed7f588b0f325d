ghost use Rattle.std.specs.Prelude.{◌≡◌, ℕ, ◌+◌, ◌%◌, ◌^◌, ◌<◌, true, is_some, Some, None, ◌≢◌};
ghost use Rattle.monoid.specs.Laws.{Lawful};
ghost use Rattle.monoid.specs.Asking.{AskedFor};
ghost use Rattle.memo.specs.Products.{found};
ghost use Rattle.memo.specs.Memo.{Kept, Product, Held, Once, Alike, at_most_one};
ghost use Rattle.std.proofs.Common.{rules};

use crate::products::Products;
use monoid::indexes::index_product;
use monoid::recogniser::Recogniser;
use monoid::small::SmallRecogniser;
use monoid::tally::Tally;
use rows::kind::Kind;

// Keeps each product that it is asked for, and asks below for none twice.
#[derive(Drop)]
pub struct Memo<R> {
    below: R,
    products: Products,
    tally: Tally,
}

impl<R: SmallRecogniser> Memo<R> {
    // It keeps nothing yet, recognises the languages below, and is in order when the one below is.
    pub fn new(below: R) -> Memo<R>
        ensures value { result.below ≡ below }
        ensures empty { (i j : ℕ) → found result.products i j ≡ None }
        ensures counted { result.tally.count ≡ 0 }
        ensures meaning { ⟦<Memo<R> as Recogniser>⟧.meaning result ≡ R.meaning below }
        ensures order { R.orderly below → R.orderly result.below × Kept (R.meaning result.below) (R.small result.below) result.products }
        ensures laws { R.orderly below → Lawful (R.meaning result.below) }
        ensures languages { Alike (R.meaning result.below) (R.meaning below) }
    {
        Memo {
            below,
            products: Products::none(),
            tally: Tally::new(),
        }
    }

    // The product of two indexes: the one that is kept, or else asked below and kept from then on. How much was asked below
    // hangs on what was kept, so it is a clause with both.
    pub fn product_at(&mut self, left: usize, right: usize) -> usize
        ensures value { R.orderly self.old.below → Product (R.meaning self.old.below) (R.small self.old.below) self.old.products left right result }
        ensures same { R.meaning self.new.below ≡ R.meaning self.old.below }
        ensures order { R.orderly self.old.below → R.orderly self.new.below }
        ensures truth { R.orderly self.old.below → Kept (R.meaning self.old.below) (R.small self.old.below) self.old.products → Kept (R.meaning self.new.below) (R.small self.new.below) self.new.products }
        ensures once { Once left right self.old.products self.new.products (R.tally self.old.below) (R.tally self.new.below) }
        ensures kept { R.orderly self.old.below → Held (R.small self.old.below) self.new.products left right }
        ensures at_most_once { at_most_one (R.tally self.old.below) (R.tally self.new.below) }
        ensures counted { self.new.tally ≡ self.old.tally }
    {
        if let Some(product) = self.products.find(left, right) {
            return usize::from(product);
        }
        let product = index_product(&mut self.below, left, right);
        self.keep(left, right, product);
        product
    }

    // How many products were asked for below so far, modulo 2^64.
    pub fn asked_below(&self) -> u64
        ensures value { result ≡ R.tally self.now.below }
    {
        self.below.asked()
    }

    // Keeps a product of two indexes, where all three are below the order.
    fn keep(&mut self, left: usize, right: usize, product: usize)
        ensures after { left < (R.small self.old.below).order → right < (R.small self.old.below).order → product < (R.small self.old.below).order → found self.new.products left right ≡ Some product }
        ensures refused { (left < (R.small self.old.below).order → right < (R.small self.old.below).order → ⊥) → found self.new.products left right ≡ found self.old.products left right }
        ensures same { (i j : ℕ) → (i ≡ left → j ≢ right) → found self.new.products i j ≡ found self.old.products i j }
        ensures below { self.new.below ≡ self.old.below }
        ensures counted { self.new.tally ≡ self.old.tally }
    {
        let order = self.below.order();
        if left < order && right < order && product < order {
            self.products.keep(left, right, product as u8);
        }
    }
}

impl<R: SmallRecogniser> Recogniser for Memo<R> {
    type Element = R::Element;

    ghost meaning = { λ s. R.meaning s.below };

    ghost tally = { λ s. s.tally.count };

    ghost orderly = { λ s. R.orderly s.below × Kept (R.meaning s.below) (R.small s.below) s.products };

    ghost shaped = { Prim.search rules };

    ghost lawful = { Prim.search rules };

    ghost bounded = { Prim.search rules };

    fn unit(&self) -> R::Element {
        self.below.unit()
    }

    fn image(&self, kind: Kind) -> R::Element {
        self.below.image(kind)
    }

    // Of sound factors the pair is kept from then on. An unsound one can make nothing kept untrue, and nothing lost.
    // Whatever the factors are, no more than one product is asked below: a pile of recognisers must not cost twice as
    // many with each.
    fn product(&mut self, left: R::Element, right: R::Element) -> R::Element
        ensures value { R.orderly self.old.below × Kept (R.meaning self.old.below) (R.small self.old.below) self.old.products → (R.meaning self.old.below).sound left ≡ true → (R.meaning self.old.below).sound right ≡ true → result ≡ (R.meaning self.old.below).mul left right }
        ensures same { R.meaning self.new.below ≡ R.meaning self.old.below }
        ensures order { R.orderly self.old.below × Kept (R.meaning self.old.below) (R.small self.old.below) self.old.products → R.orderly self.new.below × Kept (R.meaning self.new.below) (R.small self.new.below) self.new.products }
        ensures counted { self.new.tally.count ≡ (self.old.tally.count + 1) % 2 ^ 64 }
        ensures once { R.orderly self.old.below → (R.meaning self.old.below).sound left ≡ true → (R.meaning self.old.below).sound right ≡ true → Once ((R.small self.old.below).index left) ((R.small self.old.below).index right) self.old.products self.new.products (R.tally self.old.below) (R.tally self.new.below) }
        ensures kept { R.orderly self.old.below → (R.meaning self.old.below).sound left ≡ true → (R.meaning self.old.below).sound right ≡ true → is_some (found self.new.products ((R.small self.old.below).index left) ((R.small self.old.below).index right)) ≡ true }
        ensures below { AskedFor R.meaning R.orderly R.tally at_most_one self.old.below self.new.below }
        ensures lasting { (i j k : ℕ) → found self.old.products i j ≡ Some k → found self.new.products i j ≡ Some k }
    {
        self.tally.raise();
        let i = self.below.index(left);
        let j = self.below.index(right);
        let product = self.product_at(i, j);
        self.below.element(product)
    }

    fn asked(&self) -> u64 {
        self.tally.value()
    }

    fn width(&self) -> usize {
        self.below.width()
    }

    fn lit(&self, element: R::Element, lamp: usize) -> bool {
        self.below.lit(element, lamp)
    }
}

impl<R: SmallRecogniser> SmallRecogniser for Memo<R> {
    ghost small = { λ s. R.small s.below };

    ghost sized = { Prim.search rules };

    ghost undone = { Prim.search rules };

    ghost steady = { Prim.search rules };

    fn order(&self) -> usize {
        self.below.order()
    }

    fn index(&self, element: R::Element) -> usize {
        self.below.index(element)
    }

    fn element(&self, index: usize) -> R::Element {
        self.below.element(index)
    }
}
