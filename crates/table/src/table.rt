ghost use Rattle.std.specs.Prelude.{◌≡◌, true};
ghost use Rattle.checks.specs.Verdicts.{accepted};
ghost use Rattle.table.specs.Checks.{verdict_of};

use crate::data::TableData;
use monoid::tally::Tally;

// A table whose data have passed the check.
#[derive(Drop)]
pub struct Table {
    pub(crate) data: TableData,
    pub(crate) tally: Tally,
    ghost checked: { accepted (verdict_of «data») ≡ true },
}
