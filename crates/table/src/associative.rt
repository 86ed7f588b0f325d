ghost use Rattle.std.specs.Prelude.{◌≡◌};
ghost use Rattle.table.specs.Checks.{associates, associates_at, associates_from, associative};

use crate::data::TableData;

impl TableData {
    // Whether (x·y)·z is x·(y·z) for all elements.
    pub(crate) fn associative(&self) -> bool
        ensures value { result ≡ associative self.now }
    {
        (0..self.size).all(|x| self.associates_from(x))
    }

    fn associates_from(&self, x: u8) -> bool
        ensures value { result ≡ associates_from self.now x }
    {
        (0..self.size).all(|y| self.associates_at(x, y))
    }

    fn associates_at(&self, x: u8, y: u8) -> bool
        ensures value { result ≡ associates_at self.now x y }
    {
        (0..self.size).all(|z| self.associates(x, y, z))
    }

    fn associates(&self, x: u8, y: u8, z: u8) -> bool
        ensures value { result ≡ associates self.now x y z }
    {
        self.times(self.times(x, y), z) == self.times(x, self.times(y, z))
    }
}
