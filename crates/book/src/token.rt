ghost use Rattle.std.specs.Prelude.{◌≡◌, Bool};
ghost use Rattle.calls.specs.Calls.{Works, Called, Answered, Noted};
ghost use Rattle.calls.specs.Runs.{GoesOn};
ghost use Rattle.book.specs.Tokens.{Handed};

use crate::book::Book;
use calls::noting;
use calls::outcome::Outcome;
use calls::perform::perform;
use cells::cell::Cell;
use monoid::recogniser::Recogniser;
use plain::call::Call;

// What an accepted pause hands out: the sheet of its tag is to be recalculated. A type with no `Drop` at all: its values can
// only be moved on, or taken apart where their field is known, which a recalculation alone does.
pub struct PauseToken {
    tag: u32,
}

impl PauseToken {
    // The tag of the sheet that is to be recalculated.
    pub fn tag(&self) -> u32
        ensures value { result ≡ self.now.tag }
    {
        self.tag
    }
}

// What a pause came to, with its token where it was accepted: no `Drop` either, since it may hold one. No Result: a pause has an outcome either way.
pub struct Paused {
    pub outcome: Outcome,
    pub token: Option<PauseToken>,
}

// The token of a pause, where it was accepted.
fn token_of(outcome: &Outcome, tag: u32) -> Option<PauseToken>
    ensures handed { Handed tag outcome.now.refusal result }
{
    match outcome.refusal {
        None => Some(PauseToken { tag }),
        Some(_) => None,
    }
}

// Cells and recogniser are the caller's and lent for a call, so they stand apart from the book.
impl Book {
    // Pauses a settled sheet: until it is recalculated, its edits ask for no product. Where it is accepted, a token is
    // handed out.
    pub fn pause<R: Recogniser>(
        &mut self,
        cells: &[Cell<R::Element>],
        recogniser: &R,
        tag: u32,
    ) -> Paused
        ensures noted { Noted self.old.records self.new.records (Call.Pause tag) result.outcome }
        ensures answered { Answered self.old.records self.new.records (Call.Pause tag) result.outcome }
        ensures called { Called R.meaning R.orderly R.tally self.old.records self.new.records cells.now cells.now recogniser.now recogniser.now (Call.Pause tag) result.outcome }
        ensures works { (lawful : Bool) → Works lawful (R.meaning recogniser.now) self.old.records self.new.records cells.now cells.now (Call.Pause tag) result.outcome }
        ensures runs { GoesOn R.meaning R.orderly R.tally self.old.records self.new.records cells.now cells.now recogniser.now recogniser.now (Call.Pause tag) result.outcome }
        ensures handed { Handed tag result.outcome.refusal result.token }
    {
        let outcome = noting::pause(&mut self.records, cells, recogniser, tag);
        let token = token_of(&outcome, tag);
        Paused { outcome, token }
    }

    // Recalculates the sheet of the token's tag, and spends the token either way.
    pub fn recalculate<R: Recogniser>(
        &mut self,
        cells: &mut [Cell<R::Element>],
        recogniser: &mut R,
        token: PauseToken,
    ) -> Outcome
        ensures called { Called R.meaning R.orderly R.tally self.old.records self.new.records cells.old cells.new recogniser.old recogniser.new (Call.Recalculate token.tag) result }
        ensures runs { GoesOn R.meaning R.orderly R.tally self.old.records self.new.records cells.old cells.new recogniser.old recogniser.new (Call.Recalculate token.tag) result }
    {
        let PauseToken { tag } = token;
        perform(
            &mut self.records,
            cells,
            recogniser,
            Call::Recalculate { tag },
        )
    }
}
