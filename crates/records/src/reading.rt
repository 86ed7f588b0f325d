ghost use Rattle.std.specs.Prelude.{◌≡◌, ◌==◌, min, [], length, None, position};
ghost use Rattle.std.specs.List.{find};
ghost use Rattle.plain.specs.Sheets.{is_settled, is_paused, named, such, state_in, rows_of, total};
ghost use Rattle.records.specs.declared.record.Record.{Record};
ghost use Rattle.records.specs.Views.{standing, outline_of};
ghost use Rattle.records.specs.Changes.{sheets_of};

use crate::record::Record;
use crate::records::{MOST_CELLS, MOST_SHEETS, Records};
use plain::state::State;

impl Records {
    pub fn capacity(&self) -> u16
        ensures value { result ≡ self.now.capacity }
    {
        self.capacity
    }

    // Records of no sheet, over so many cells, 4,096 at the most, of which the unused ones begin there.
    pub fn empty(cells: u16, unused: Option<u16>) -> Records
        ensures sheets { standing result ≡ [] }
        ensures capacity { result.capacity ≡ min cells 4096 }
        ensures head { result.unused ≡ unused }
    {
        Records {
            records: [Record::fresh(0, 0, None); MOST_SHEETS],
            live: 0,
            capacity: cells.min(MOST_CELLS),
            unused,
        }
    }

    // Where the unused cells begin.
    pub fn unused(&self) -> Option<u16>
        ensures value { result ≡ self.now.unused }
    {
        self.unused
    }

    // How many sheets stand.
    pub fn sheet_count(&self) -> usize
        ensures value { result ≡ length (outline_of self.now) }
    {
        self.live
    }

    // The records of the sheets that stand.
    fn standing(&self) -> &[Record]
        ensures value { result.now ≡ standing self.now }
    {
        &self.records[..self.live]
    }

    // Where the record of a tag stands, if a sheet has the tag.
    pub(crate) fn place(&self, tag: u32) -> Option<usize>
        ensures value { result ≡ position (λ (r : Record). r.tag == tag) (standing self.now) }
    {
        self.standing().iter().position(|record| record.tag == tag)
    }

    // The record of the sheet of the tag, if there is one. By its place: a search that counts makes a shorter loop than `find`.
    fn sheet(&self, tag: u32) -> Option<Record>
        ensures value { result ≡ find (λ (r : Record). r.tag == tag) (standing self.now) }
    {
        let at = self.place(tag)?;
        Some(self.records[at])
    }

    // Whether a sheet has the tag.
    #[tactic(auto, using(crate::proofs::Finding::named_found))]
    pub fn has(&self, tag: u32) -> bool
        ensures value { result ≡ named tag (outline_of self.now) }
    {
        self.sheet(tag).is_some()
    }

    // Whether the sheet of the tag is settled.
    #[tactic(auto, using(crate::proofs::Finding::such_found))]
    pub fn is_settled(&self, tag: u32) -> bool
        ensures value { result ≡ such is_settled tag (outline_of self.now) }
    {
        self.sheet(tag)
            .is_some_and(|record| record.state == State::Settled)
    }

    // Whether the sheet of the tag is paused. Beside `is_settled`: each is a question of its own in the definition.
    #[tactic(auto, using(crate::proofs::Finding::such_found))]
    pub fn is_paused(&self, tag: u32) -> bool
        ensures value { result ≡ such is_paused tag (outline_of self.now) }
    {
        self.sheet(tag)
            .is_some_and(|record| record.state == State::Paused)
    }

    // The state of the sheet of the tag; settled where there is no such sheet.
    #[tactic(auto, using(crate::proofs::Finding::state_found))]
    pub fn state(&self, tag: u32) -> State
        ensures value { result ≡ state_in tag (outline_of self.now) }
    {
        self.sheet(tag)
            .map_or(State::Settled, |record| record.state)
    }

    // How many rows the sheet of the tag has; none where there is no such sheet.
    pub fn row_count(&self, tag: u32) -> u32
        ensures value { result ≡ rows_of 0 tag (outline_of self.now) }
    {
        u32::from(self.rows(tag))
    }

    // The same, in 16 bits.
    #[tactic(auto, using(crate::proofs::Finding::rows_found))]
    pub(crate) fn rows(&self, tag: u32) -> u16
        ensures value { result ≡ rows_of 0 tag (outline_of self.now) }
    {
        self.sheet(tag).map_or(0, |record| record.rows)
    }

    // Where the tree of the sheet of the tag has its root; nowhere where there is no such sheet.
    #[tactic(auto, using(crate::proofs::Finding::rooted_lem))]
    pub fn root(&self, tag: u32) -> Option<u16>
        ensures value { result ≡ (rows_of (0, None) tag (sheets_of self.now)).1 }
    {
        self.sheet(tag).and_then(|record| record.root)
    }

    // How many rows all sheets have together.
    #[tactic(auto, using(crate::proofs::Within::total_is, crate::proofs::Within::sum_within))]
    pub fn total(&self) -> u32
        ensures value { result ≡ total (outline_of self.now) }
    {
        self.standing()
            .iter()
            .map(|record| u32::from(record.rows))
            .sum()
    }
}
