ghost use Rattle.std.specs.Prelude.{◌≡◌, slice_index_or};
ghost use Rattle.table.specs.Tables.{times, lit_in};

use rows::kind::KINDS;

// How many elements a table has at the most.
pub const MOST: usize = 8;

// The element that is to be neutral.
pub const UNIT: u8 = 0;

// What a table is made from; it may be wrong. The elements are 0 to size − 1.
//
// Arrays with a count: the data are copied, and take no heap.
#[derive(Clone, Copy)]
pub struct TableData {
    pub size: u8,
    // The product of x and y stands at products[x][y]; what stands outside the elements does not matter.
    pub products: [[u8; MOST]; MOST],
    // The image of each kind, by its place.
    pub images: [u8; KINDS],
    // The elements at which the lamp is lit. Not beside their rows: a row is written as a whole.
    pub lit: [bool; MOST],
}

impl TableData {
    // The product of two elements that stands in the table, and 0 outside it.
    pub(crate) fn times(&self, left: u8, right: u8) -> u8
        ensures value { result ≡ times self.now left right }
    {
        let row = at(&self.products, left, [UNIT; MOST]);
        at(&row, right, UNIT)
    }

    // Whether the lamp is lit at an element; outside the table it is not.
    pub(crate) fn lights(&self, element: u8) -> bool
        ensures value { result ≡ lit_in self.now element }
    {
        at(&self.lit, element, false)
    }
}

// What stands at a place, or what is said of places outside.
fn at<T: Copy>(entries: &[T], place: u8, outside: T) -> T
    ensures value { result ≡ slice_index_or entries.now place outside }
{
    entries.get(usize::from(place)).copied().unwrap_or(outside)
}
