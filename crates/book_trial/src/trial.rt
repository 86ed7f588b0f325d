use crate::check::{check, check_broken};
use crate::draw::draw;
use crate::fault::Fault;
use crate::lists::Lists;
use crate::met::Met;
use crate::spoil::spoil;
use crate::tokens::{pause, recalculate, spend_all};
use book::book::Book;
use book::token::PauseToken;
use calls::outcome::Outcome;
use cells::cell::Cell;
use checks::verdict::ask;
use dice::dice::Dice;
use monoid::recogniser::Recogniser;
use plain::call::Call;
use std::alloc::Global;

// The seed of the dice.
const SEED: u32 = 29;

// How many calls of a round come before its cells are spoilt.
const UNSPOILT: u32 = 100;

// How often, at the least, each kind of call is to be accepted and declined, each number to be met and broken cells too,
// and the first lamp to be shown lit and not lit.
pub const LEAST: u32 = 40;

// How a trial runs: in so many cells, so many rounds of so many calls, each round on a new book, over cells that no one
// else writes to or over cells that are spoilt, and are compared accordingly.
#[derive(Clone, Copy)]
pub struct Plan {
    pub cells: u16,
    pub rounds: u32,
    pub calls: u32,
    pub spoils: bool,
}

// A book beside its sheets as plain lists. Cells, recogniser and tokens are not in it: cells are lent for a call, some or
// all, and tokens are spent when a round ends.
#[derive(Drop)]
struct Trial {
    book: Book,
    lists: Lists,
    dice: Dice,
    met: Met,
    calls: u32,
    heap: Global,
}

impl Trial {
    // Works a call on the book, by name: a pause hands out a token and a recalculation takes one.
    fn perform<R: Recogniser>(
        &mut self,
        cells: &mut [Cell<R::Element>],
        recogniser: &mut R,
        tokens: &mut Vec<PauseToken>,
        call: Call,
    ) -> Result<Outcome, Fault> {
        match call {
            Call::Open { tag } => Ok(self.book.open(cells, recogniser, tag)),
            Call::Copy { tag, new } => Ok(self.book.copy(cells, recogniser, tag, new)),
            Call::Rename { tag, new } => Ok(self.book.rename(cells, recogniser, tag, new)),
            Call::Close { tag } => Ok(self.book.close(cells, recogniser, tag)),
            Call::Pause { tag } => pause(&mut self.book, cells, recogniser, tokens, tag),
            Call::Recalculate { tag } => recalculate(
                &mut self.book,
                cells,
                recogniser,
                tokens,
                &mut self.dice,
                tag,
            ),
            Call::Insert { tag, row, kind } => {
                Ok(self.book.insert(cells, recogniser, tag, row, kind))
            }
            Call::Strike { tag, row } => Ok(self.book.strike(cells, recogniser, tag, row)),
            Call::Replace { tag, row, kind } => {
                Ok(self.book.replace(cells, recogniser, tag, row, kind))
            }
            Call::Whole { tag } => Ok(self.book.whole(cells, recogniser, tag)),
            Call::Range { tag, first, last } => {
                Ok(self.book.range(cells, recogniser, tag, first, last))
            }
        }
    }

    // Draws a call, works it on the book, and compares what it came to; the lists follow.
    fn turn<R: Recogniser>(
        &mut self,
        cells: &mut [Cell<R::Element>],
        recogniser: &mut R,
        tokens: &mut Vec<PauseToken>,
        spoils: bool,
    ) -> Result<(), Fault> {
        let call = draw(&mut self.dice, &self.lists);
        let before = recogniser.asked();
        let outcome = self.perform(cells, recogniser, tokens, call)?;
        let spent = recogniser.asked().wrapping_sub(before);
        ask(outcome.count == spent, Fault::Count)?;
        if spoils {
            check_broken(&self.lists, call, outcome)?;
        } else {
            check(recogniser, &self.lists, call, outcome)?;
        }
        self.met.add(call, outcome);
        if outcome.refusal.is_none() {
            self.lists.work(self.heap, call)?;
        }
        Ok(())
    }

    // Spoils some cells, and tells how many are to be handed over next.
    fn prepare<E: Copy>(&mut self, cells: &mut [Cell<E>]) -> usize {
        if self.dice.below(20) == 0 {
            spoil(cells, &mut self.dice);
        }
        if self.dice.below(8) == 0 {
            usize::from(self.dice.below(16))
        } else {
            cells.len()
        }
    }

    // One call more, on cells that were spoilt before or not.
    fn step<R: Recogniser>(
        &mut self,
        cells: &mut [Cell<R::Element>],
        recogniser: &mut R,
        tokens: &mut Vec<PauseToken>,
        spoils: bool,
    ) -> Result<(), Fault> {
        if !spoils {
            return self.turn(cells, recogniser, tokens, false);
        }
        let most = self.prepare(cells);
        let end = most.min(cells.len());
        self.turn(&mut cells[0..end], recogniser, tokens, true)
    }

    // Works the calls of a round, until one is at fault.
    fn play<R: Recogniser>(
        &mut self,
        cells: &mut [Cell<R::Element>],
        recogniser: &mut R,
        tokens: &mut Vec<PauseToken>,
        plan: Plan,
    ) -> Result<(), Fault> {
        for call in 0..plan.calls {
            self.calls = self.calls.saturating_add(1);
            let spoils = plan.spoils && call >= UNSPOILT;
            self.step(cells, recogniser, tokens, spoils)?;
        }
        Ok(())
    }

    // A round on a new book. All tokens are spent at its end, whether or not a call was at fault.
    fn round<R: Recogniser>(
        &mut self,
        cells: &mut [Cell<R::Element>],
        recogniser: &mut R,
        plan: Plan,
    ) -> Result<(), Fault> {
        self.book = Book::create(cells);
        self.lists = Lists::new(self.heap, u64::from(plan.cells));
        let mut tokens = Vec::new(self.heap);
        let played = self.play(cells, recogniser, &mut tokens, plan);
        spend_all(&mut self.book, cells, recogniser, tokens);
        played
    }

    // All rounds, and then whether calls of all kinds were met often enough.
    fn rounds<R: Recogniser>(&mut self, recogniser: &mut R, plan: Plan) -> Result<(), Fault> {
        let blank = Cell::blank(recogniser.unit());
        let mut cells = vec![in self.heap; blank; usize::from(plan.cells)]?;
        for _ in 0..plan.rounds {
            self.round(cells.as_mut_slice(), recogniser, plan)?;
        }
        ask(self.met.reaches(LEAST), Fault::Idle)?;
        ask(!plan.spoils || self.met.broken() >= LEAST, Fault::Idle)
    }
}

// Works a trial under a recogniser, in cells of its own: how many calls it worked, and the fault at which it ended early,
// if any.
pub fn run<R: Recogniser>(
    heap: Global,
    recogniser: &mut R,
    plan: Plan,
) -> (u32, Result<(), Fault>) {
    let mut none: [Cell<R::Element>; 0] = [];
    let mut trial = Trial {
        book: Book::create(&mut none),
        lists: Lists::new(heap, 0),
        dice: Dice::new(SEED),
        met: Met::new(),
        calls: 0,
        heap,
    };
    let ended = trial.rounds(recogniser, plan);
    (trial.calls, ended)
}
