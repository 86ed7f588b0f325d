ghost use Rattle.calls.specs.Runs.{Created};

use calls::creating::create_records;
use cells::cell::Cell;
use records::records::Records;

// Up to eight sheets of rows in the cells that a caller lends. Neither copied nor cloned: beside an old copy of itself, a book
// would be over cells that have moved on.
#[derive(Drop)]
pub struct Book {
    pub(crate) records: Records,
}

impl Book {
    // A book with no sheet over the first 4,096 cells, or all if fewer.
    pub fn create<E: Copy>(cells: &mut [Cell<E>]) -> Book
        ensures created { Created cells.old result.records cells.new }
    {
        Book {
            records: create_records(cells),
        }
    }
}
