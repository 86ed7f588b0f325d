ghost use Rattle.std.specs.Prelude.{◌≡◌};
ghost use Rattle.table.specs.Checks.{neutral_at, neutral};

use crate::data::{TableData, UNIT};

impl TableData {
    // Whether the unit is neutral on both sides.
    pub(crate) fn neutral(&self) -> bool
        ensures value { result ≡ neutral self.now }
    {
        (0..self.size).all(|element| self.neutral_at(element))
    }

    fn neutral_at(&self, element: u8) -> bool
        ensures value { result ≡ neutral_at self.now element }
    {
        self.times(UNIT, element) == element && self.times(element, UNIT) == element
    }
}
