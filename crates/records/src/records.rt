ghost use Rattle.std.specs.Prelude.{◌≡◌, ◌≤◌, true, length, take};
ghost use Rattle.plain.specs.Lawful.{lawful};
ghost use Rattle.records.specs.Entries.{entries};

use crate::record::Record;

// How many sheets a book holds at the most.
pub const MOST_SHEETS: usize = 8;

// How many cells a book takes at the most.
pub const MOST_CELLS: u16 = 4_096;

// The records: the first `live` are those of the sheets that stand, and `unused` heads the list of unused cells. Every
// value of them has distinct tags from 1 to 9,999 and, over all sheets, rows within the capacity. An array with a count,
// which takes no heap. Not copied: what an old copy says of the cells is no longer so after the next call.
#[derive(Drop)]
pub struct Records {
    pub(crate) records: [Record; MOST_SHEETS],
    pub(crate) live: usize,
    pub(crate) capacity: u16,
    pub(crate) unused: Option<u16>,
    ghost eight: { length records ≡ 8 },
    ghost few: { live ≤ 8 },
    ghost most: { capacity ≤ 4096 },
    ghost ok: { lawful capacity (entries (take live records)) ≡ true },
}
