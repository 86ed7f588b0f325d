ghost use Rattle.std.specs.Prelude.{◌≡◌, ◌+◌, ◌-◌, ◌%◌, ◌^◌, min, length, None};
ghost use Rattle.plain.specs.Sheets.{state_in, rows_of};
ghost use Rattle.records.specs.Views.{outline_of};
ghost use Rattle.records.specs.Changes.{sheets_of};

use cells::cell::Cell;
use changes::change::Part;
use records::records::Records;

// How many cells are lent on: those within the capacity, or all if fewer were handed over.
pub(crate) fn lent<E: Copy>(records: &Records, cells: &[Cell<E>]) -> usize
    ensures value { result ≡ min records.now.capacity (length cells.now) }
{
    usize::from(records.capacity()).min(cells.len())
}

// What a call on the sheet of a tag is given of it.
pub(crate) fn part_of(records: &Records, tag: u32) -> Part
    ensures root { result.root ≡ (rows_of (0, None) tag (sheets_of records.now)).1 }
    ensures state { result.state ≡ state_in tag (outline_of records.now) }
    ensures unused { result.unused ≡ records.now.unused }
{
    Part {
        root: records.root(tag),
        state: records.state(tag),
        unused: records.unused(),
    }
}

// How far a tally has risen, modulo 2^64.
pub(crate) fn rise(told: u64, tells: u64) -> u64
    ensures value { tells ≡ (told + result) % 2 ^ 64 }
{
    tells.wrapping_sub(told)
}
