ghost use Rattle.std.specs.Prelude.{Bool};
ghost use Rattle.calls.specs.Calls.{Works, Called, Answered, Noted};
ghost use Rattle.calls.specs.Runs.{GoesOn};

use crate::book::Book;
use calls::noting;
use calls::outcome::Outcome;
use calls::perform::perform;
use cells::cell::Cell;
use monoid::recogniser::Recogniser;
use plain::call::Call;
use rows::kind::Kind;

// A method for each call, since a pause hands out a token and a recalculation takes one. Cells and recogniser are the
// caller's and lent for a call, so they stand apart from the book. What a call did and that a run goes on with it are two
// clauses, which are cited apart.
impl Book {
    // A new sheet, settled and with no row.
    pub fn open<R: Recogniser>(
        &mut self,
        cells: &[Cell<R::Element>],
        recogniser: &R,
        tag: u32,
    ) -> Outcome
        ensures noted { Noted self.old.records self.new.records (Call.Open tag) result }
        ensures answered { Answered self.old.records self.new.records (Call.Open tag) result }
        ensures called { Called R.meaning R.orderly R.tally self.old.records self.new.records cells.now cells.now recogniser.now recogniser.now (Call.Open tag) result }
        ensures works { (lawful : Bool) → Works lawful (R.meaning recogniser.now) self.old.records self.new.records cells.now cells.now (Call.Open tag) result }
        ensures runs { GoesOn R.meaning R.orderly R.tally self.old.records self.new.records cells.now cells.now recogniser.now recogniser.now (Call.Open tag) result }
    {
        noting::open(&mut self.records, cells, recogniser, tag)
    }

    // Another sheet with the same rows, settled, under a new tag.
    pub fn copy<R: Recogniser>(
        &mut self,
        cells: &mut [Cell<R::Element>],
        recogniser: &mut R,
        tag: u32,
        new: u32,
    ) -> Outcome
        ensures called { Called R.meaning R.orderly R.tally self.old.records self.new.records cells.old cells.new recogniser.old recogniser.new (Call.Copy tag new) result }
        ensures runs { GoesOn R.meaning R.orderly R.tally self.old.records self.new.records cells.old cells.new recogniser.old recogniser.new (Call.Copy tag new) result }
    {
        perform(
            &mut self.records,
            cells,
            recogniser,
            Call::Copy { tag, new },
        )
    }

    // Another tag for a settled sheet.
    pub fn rename<R: Recogniser>(
        &mut self,
        cells: &[Cell<R::Element>],
        recogniser: &R,
        tag: u32,
        new: u32,
    ) -> Outcome
        ensures noted { Noted self.old.records self.new.records (Call.Rename tag new) result }
        ensures answered { Answered self.old.records self.new.records (Call.Rename tag new) result }
        ensures called { Called R.meaning R.orderly R.tally self.old.records self.new.records cells.now cells.now recogniser.now recogniser.now (Call.Rename tag new) result }
        ensures works { (lawful : Bool) → Works lawful (R.meaning recogniser.now) self.old.records self.new.records cells.now cells.now (Call.Rename tag new) result }
        ensures runs { GoesOn R.meaning R.orderly R.tally self.old.records self.new.records cells.now cells.now recogniser.now recogniser.now (Call.Rename tag new) result }
    {
        noting::rename(&mut self.records, cells, recogniser, tag, new)
    }

    // Takes a settled sheet out, and frees its cells.
    pub fn close<R: Recogniser>(
        &mut self,
        cells: &mut [Cell<R::Element>],
        recogniser: &mut R,
        tag: u32,
    ) -> Outcome
        ensures called { Called R.meaning R.orderly R.tally self.old.records self.new.records cells.old cells.new recogniser.old recogniser.new (Call.Close tag) result }
        ensures runs { GoesOn R.meaning R.orderly R.tally self.old.records self.new.records cells.old cells.new recogniser.old recogniser.new (Call.Close tag) result }
    {
        perform(&mut self.records, cells, recogniser, Call::Close { tag })
    }

    // Makes a row of a kind the one of that number.
    pub fn insert<R: Recogniser>(
        &mut self,
        cells: &mut [Cell<R::Element>],
        recogniser: &mut R,
        tag: u32,
        row: u32,
        kind: Kind,
    ) -> Outcome
        ensures called { Called R.meaning R.orderly R.tally self.old.records self.new.records cells.old cells.new recogniser.old recogniser.new (Call.Insert tag row kind) result }
        ensures runs { GoesOn R.meaning R.orderly R.tally self.old.records self.new.records cells.old cells.new recogniser.old recogniser.new (Call.Insert tag row kind) result }
    {
        perform(
            &mut self.records,
            cells,
            recogniser,
            Call::Insert { tag, row, kind },
        )
    }

    // Takes the row of that number out.
    pub fn strike<R: Recogniser>(
        &mut self,
        cells: &mut [Cell<R::Element>],
        recogniser: &mut R,
        tag: u32,
        row: u32,
    ) -> Outcome
        ensures called { Called R.meaning R.orderly R.tally self.old.records self.new.records cells.old cells.new recogniser.old recogniser.new (Call.Strike tag row) result }
        ensures runs { GoesOn R.meaning R.orderly R.tally self.old.records self.new.records cells.old cells.new recogniser.old recogniser.new (Call.Strike tag row) result }
    {
        perform(
            &mut self.records,
            cells,
            recogniser,
            Call::Strike { tag, row },
        )
    }

    // Gives the row of that number another kind.
    pub fn replace<R: Recogniser>(
        &mut self,
        cells: &mut [Cell<R::Element>],
        recogniser: &mut R,
        tag: u32,
        row: u32,
        kind: Kind,
    ) -> Outcome
        ensures called { Called R.meaning R.orderly R.tally self.old.records self.new.records cells.old cells.new recogniser.old recogniser.new (Call.Replace tag row kind) result }
        ensures runs { GoesOn R.meaning R.orderly R.tally self.old.records self.new.records cells.old cells.new recogniser.old recogniser.new (Call.Replace tag row kind) result }
    {
        perform(
            &mut self.records,
            cells,
            recogniser,
            Call::Replace { tag, row, kind },
        )
    }

    // The lamps of all rows of a settled sheet.
    pub fn whole<R: Recogniser>(
        &mut self,
        cells: &mut [Cell<R::Element>],
        recogniser: &mut R,
        tag: u32,
    ) -> Outcome
        ensures called { Called R.meaning R.orderly R.tally self.old.records self.new.records cells.old cells.new recogniser.old recogniser.new (Call.Whole tag) result }
        ensures runs { GoesOn R.meaning R.orderly R.tally self.old.records self.new.records cells.old cells.new recogniser.old recogniser.new (Call.Whole tag) result }
    {
        perform(&mut self.records, cells, recogniser, Call::Whole { tag })
    }

    // The lamps of the rows first to last of a settled sheet; of none where last is the one before first.
    pub fn range<R: Recogniser>(
        &mut self,
        cells: &mut [Cell<R::Element>],
        recogniser: &mut R,
        tag: u32,
        first: u32,
        last: u32,
    ) -> Outcome
        ensures called { Called R.meaning R.orderly R.tally self.old.records self.new.records cells.old cells.new recogniser.old recogniser.new (Call.Range tag first last) result }
        ensures runs { GoesOn R.meaning R.orderly R.tally self.old.records self.new.records cells.old cells.new recogniser.old recogniser.new (Call.Range tag first last) result }
    {
        perform(
            &mut self.records,
            cells,
            recogniser,
            Call::Range { tag, first, last },
        )
    }
}
