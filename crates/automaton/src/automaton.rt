ghost use Rattle.std.specs.Prelude.{◌≡◌, true};
ghost use Rattle.checks.specs.Verdicts.{accepted};
ghost use Rattle.automaton.specs.Checks.{verdict_of};

use crate::data::AutomatonData;
use monoid::tally::Tally;

// An automaton whose data have passed the check.
#[derive(Drop)]
pub struct Automaton {
    pub(crate) data: AutomatonData,
    pub(crate) tally: Tally,
    ghost checked: { accepted (verdict_of «data») ≡ true },
}
