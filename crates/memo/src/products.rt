ghost use Rattle.std.specs.Prelude.{◌≡◌, ℕ, ◌<◌, Some, None, ◌≢◌, slice_index_or};
ghost use Rattle.memo.specs.Products.{found};

// How many elements a small recogniser has at the most.
const MOST: usize = 8;

// Products of a small recogniser that are known, by the indexes of their factors: a row for each left one.
#[derive(Drop)]
pub struct Products {
    known: [[Option<u8>; MOST]; MOST],
}

// Keeps a product in the row of its left factor.
fn keep_in(row: &mut [Option<u8>; MOST], right: usize, product: u8)
    ensures after { right < 8 → slice_index_or row.new right None ≡ Some product }
    ensures same { (j : ℕ) → j ≢ right → slice_index_or row.new j None ≡ slice_index_or row.old j None }
{
    if right < MOST {
        row[right] = Some(product);
    }
}

impl Products {
    pub fn none() -> Products
        ensures value { (i j : ℕ) → found result i j ≡ None }
    {
        Products {
            known: [[None; MOST]; MOST],
        }
    }

    // The product of two indexes, if it is kept.
    pub fn find(&self, left: usize, right: usize) -> Option<u8>
        ensures value { result ≡ found self.now left right }
    {
        *self.known.get(left)?.get(right)?
    }

    // Keeps the product of two indexes, where an element can have them.
    pub fn keep(&mut self, left: usize, right: usize, product: u8)
        ensures after { left < 8 → right < 8 → found self.new left right ≡ Some product }
        ensures same { (i j : ℕ) → (i ≡ left → j ≢ right) → found self.new i j ≡ found self.old i j }
    {
        if left < MOST {
            keep_in(&mut self.known[left], right, product);
        }
    }
}
