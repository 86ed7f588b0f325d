ghost use Rattle.std.specs.Prelude.{◌≡◌, min, length, take, drop};
ghost use Rattle.watch.specs.Runs.{RunAt};

use crate::panel::Panel;
use book::work::work;
use calls::outcome::Outcome;
use cells::cell::Cell;
use plain::call::Call;

// Works calls on a book of its own under a panel, as many as there are places for their outcomes: what holds after every
// run of calls holds of this one, with no premise left. The panel was asked for nothing before them.
pub fn work_panel<P: Panel>(
    cells: &mut [Cell<P::Element>],
    calls: &[Call],
    outcomes: &mut [Outcome],
) -> usize
    ensures value { result ≡ min (length calls.now) (length outcomes.old) }
    ensures ran { RunAt P.meaning P.orderly P.tally P.kept P.Fresh P.shown cells.old cells.new (take result calls.now) (take result outcomes.new) }
    ensures rest { drop result outcomes.new ≡ drop result outcomes.old }
{
    let mut panel = P::fresh();
    work(cells, &mut panel, calls, outcomes)
}
