ghost use Rattle.std.specs.Prelude.{◌≡◌, ◌-◌, ◌<◌, ◌≤◌, true, [], ◌∷◌, ◌++◌, if◌then◌else◌, None, MatchResult, nat_lt};
ghost use Rattle.plain.specs.Calls.{tag_of};
ghost use Rattle.plain.specs.Lawful.{lawful};
ghost use Rattle.plain.specs.Refusals.{answered};
ghost use Rattle.plain.specs.Steps.{after};
ghost use Rattle.records.specs.Entries.{entries, place, without_place};
ghost use Rattle.records.specs.Views.{standing, refusal_by};
ghost use Rattle.records.specs.Changes.{rooted, taken, taken_at, sheets_of, Committed};

use crate::record::Record;
use crate::records::Records;
use plain::call::Call;
use plain::refusal::Refusal;
use plain::state::State;

// How many rows are left when a row is taken out of so many.
fn struck(rows: u16, row: u32) -> u16
    ensures value { result ≡ (if nat_lt (row - 1) rows then rows - 1 else rows) }
{
    if row.saturating_sub(1) < u32::from(rows) {
        rows - 1
    } else {
        rows
    }
}

impl Record {
    // What a call does to the record of its sheet: the sheet's own state and the call decide the new state, in place.
    fn take(&mut self, call: Call, root: Option<u16>)
        requires few { self.old.rows ≤ 4096 }
        ensures after { self.new ≡ taken call root self.old }
    {
        self.state = match (self.state, call) {
            (State::Settled | State::Paused, Call::Pause { .. }) => State::Paused,
            (State::Settled | State::Paused, Call::Recalculate { .. }) => State::Settled,
            (
                state,
                Call::Open { .. }
                | Call::Copy { .. }
                | Call::Rename { .. }
                | Call::Close { .. }
                | Call::Insert { .. }
                | Call::Strike { .. }
                | Call::Replace { .. }
                | Call::Whole { .. }
                | Call::Range { .. },
            ) => state,
        };
        match call {
            Call::Rename { new, .. } => self.tag = new,
            Call::Insert { .. } => {
                self.rows += 1;
                self.root = root;
            }
            Call::Strike { row, .. } => {
                self.rows = struck(self.rows, row);
                self.root = root;
            }
            Call::Replace { .. } | Call::Recalculate { .. } => self.root = root,
            Call::Open { .. }
            | Call::Copy { .. }
            | Call::Close { .. }
            | Call::Whole { .. }
            | Call::Range { .. }
            | Call::Pause { .. } => {}
        }
    }
}

// That the capacity stays is a clause of its own in each: the other one says what becomes of the sheets.
impl Records {
    // One record more, of a sheet that none has the tag of.
    fn append(&mut self, fresh: Record)
        requires room { self.old.live < 8 }
        requires ok { lawful self.old.capacity (entries (standing self.old ++ (fresh ∷ []))) ≡ true }
        ensures after { standing self.new ≡ standing self.old ++ (fresh ∷ []) }
        ensures capacity { self.new.capacity ≡ self.old.capacity }
    {
        self.records[self.live] = fresh;
        self.live += 1;
    }

    // Does to the record of its sheet what a call does to it; nothing where no sheet has its tag.
    fn alter(&mut self, call: Call, root: Option<u16>)
        requires ok { lawful self.old.capacity (entries (taken_at (place (tag_of call) (standing self.old)) call root (standing self.old))) ≡ true }
        ensures after { standing self.new ≡ taken_at (place (tag_of call) (standing self.old)) call root (standing self.old) }
        ensures capacity { self.new.capacity ≡ self.old.capacity }
    {
        if let Some(at) = self.place(call.tag()) {
            self.records[at].take(call, root);
        }
    }

    // Takes the record of a tag out; those after it move down by one.
    fn remove(&mut self, tag: u32)
        requires ok { lawful self.old.capacity (entries (without_place (place tag (standing self.old)) (standing self.old))) ≡ true }
        ensures after { standing self.new ≡ without_place (place tag (standing self.old)) (standing self.old) }
        ensures capacity { self.new.capacity ≡ self.old.capacity }
    {
        if let Some(at) = self.place(tag) {
            self.records[at..].rotate_left(1);
            self.live -= 1;
        }
    }

    // Changes the records as an accepted call does, or refuses as it is refused and changes nothing. The tree of the
    // sheet that is changed or made has its root there, and the unused cells begin there.
    pub fn commit(
        &mut self,
        call: Call,
        root: Option<u16>,
        unused: Option<u16>,
    ) -> Result<(), Refusal>
        ensures value { result ≡ answered (refusal_by self.old call) }
        ensures cases { MatchResult result (λ _. Committed self.old self.new call root unused) (λ _. self.new ≡ self.old) }
    {
        self.admit(call)?;
        self.change(call, root);
        self.unused = unused;
        Ok(())
    }

    // Changes the records as an accepted call does.
    fn change(&mut self, call: Call, root: Option<u16>)
        requires accepted { refusal_by self.old call ≡ None }
        ensures sheets { sheets_of self.new ≡ after (rooted root) (sheets_of self.old) call }
        ensures capacity { self.new.capacity ≡ self.old.capacity }
    {
        match call {
            Call::Open { tag } => self.append(Record::fresh(tag, 0, None)),
            Call::Copy { tag, new } => self.append(Record::fresh(new, self.rows(tag), root)),
            Call::Close { tag } => self.remove(tag),
            Call::Whole { .. } | Call::Range { .. } => {}
            Call::Rename { .. }
            | Call::Insert { .. }
            | Call::Strike { .. }
            | Call::Replace { .. }
            | Call::Pause { .. }
            | Call::Recalculate { .. } => self.alter(call, root),
        }
    }
}
