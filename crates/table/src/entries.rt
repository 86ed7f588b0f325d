ghost use Rattle.std.specs.Prelude.{◌≡◌, nat_lt};
ghost use Rattle.table.specs.Checks.{product_fits, row_fits, products_fit, images_fit, member_fits, members_fit, entries_fit};

use crate::data::{MOST, TableData};

impl TableData {
    // Whether every product of two elements, every image and every set member is an element.
    pub(crate) fn entries_fit(&self) -> bool
        ensures value { result ≡ entries_fit self.now }
    {
        self.products_fit() && self.images_fit() && self.members_fit()
    }

    // Whether a number is an element.
    fn below(&self, number: u8) -> bool
        ensures value { result ≡ nat_lt number self.now.size }
    {
        number < self.size
    }

    fn product_fits(&self, left: u8, right: u8) -> bool
        ensures value { result ≡ product_fits self.now left right }
    {
        self.below(self.times(left, right))
    }

    fn row_fits(&self, left: u8) -> bool
        ensures value { result ≡ row_fits self.now left }
    {
        (0..self.size).all(|right| self.product_fits(left, right))
    }

    fn products_fit(&self) -> bool
        ensures value { result ≡ products_fit self.now }
    {
        (0..self.size).all(|left| self.row_fits(left))
    }

    fn images_fit(&self) -> bool
        ensures value { result ≡ images_fit self.now }
    {
        self.images.iter().all(|image| self.below(*image))
    }

    // Where the lamp is lit, an element stands.
    fn member_fits(&self, element: u8) -> bool
        ensures value { result ≡ member_fits self.now element }
    {
        self.below(element) || !self.lights(element)
    }

    fn members_fit(&self) -> bool
        ensures value { result ≡ members_fit self.now }
    {
        (0..MOST).all(|element| self.member_fits(element as u8))
    }
}
