ghost use Rattle.std.specs.Prelude.{◌≡◌, min, Bool, [], length, drop};
ghost use Rattle.monoid.specs.Meaning.{Meaning};
ghost use Rattle.calls.specs.Sound.{Sound};

use cells::cell::Cell;
use records::records::Records;
use unused::list::{capacity, make_unused};

// Records of no sheet over the first 4,096 cells, or all if fewer, which are made unused.
pub fn create_records<E: Copy>(cells: &mut [Cell<E>]) -> Records
    ensures capacity { result.capacity ≡ min (length cells.old) 4096 }
    ensures sound { (lawful : Bool) (m : Meaning E) → Sound lawful m result cells.new [] }
    ensures outside { drop result.capacity cells.new ≡ drop result.capacity cells.old }
{
    let within = capacity(cells);
    let unused = make_unused(&mut cells[..usize::from(within)]);
    Records::empty(within, unused.first)
}
