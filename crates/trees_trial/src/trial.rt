use crate::compare::agrees;
use crate::edit::draw;
use crate::fault::Fault;
use crate::sheet::Sheet;
use cells::cell::Cell;
use cells::mode::Mode;
use checks::verdict::ask;
use dice::dice::Dice;
use heights::height::most_height;
use monoid::recogniser::Recogniser;
use std::alloc::Global;
use unused::freeing::free_tree;
use unused::list::make_unused;
use whole::copying::copy;
use whole::renewing::recompute;

// How many edits a trial works.
pub const EDITS: u32 = 3000;

// How many cells it lends: enough for a tree and its copy.
const CELLS: usize = 512;

// A copy is made once in so many edits, and edited quietly so often.
const COPIED: u32 = 500;

const QUIET: u32 = 50;

// The seed of the dice.
const SEED: u32 = 17;

// The products that an edit asked for, and how many it may.
#[derive(Clone, Copy)]
pub struct Spent {
    pub spent: u64,
    pub bound: u64,
}

// What a trial has met so far: its edits, the ranges that lit lamp 0, and the edit that asked most.
#[derive(Clone, Copy)]
pub struct Met {
    pub edits: u32,
    pub lit: u32,
    pub worst: Spent,
}

impl Met {
    // Before the first edit.
    fn nothing() -> Met {
        Met {
            edits: 0,
            lit: 0,
            worst: Spent { spent: 0, bound: 0 },
        }
    }

    // What an edit came to.
    fn add(&mut self, spent: Spent, lit: bool) {
        if spent.spent > self.worst.spent {
            self.worst = spent;
        }
        self.lit = self.lit.saturating_add(u32::from(lit));
    }
}

// A recogniser, and the cells that are lent to trees under it, with the dice that draw what is done to them.
#[derive(Drop)]
struct Trial<R: Recogniser> {
    recogniser: R,
    cells: Vec<Cell<R::Element>>,
    dice: Dice,
    heap: Global,
}

// How many products an edit of a balanced tree of so many rows may ask for.
fn edit_bound(rows: u16) -> u64 {
    let height = u64::from(most_height(rows));
    height.saturating_mul(8).saturating_add(8)
}

impl<R: Recogniser + Drop> Trial<R> {
    fn new(heap: Global, recogniser: R) -> Result<Trial<R>, Fault> {
        let cells = vec![in heap; Cell::blank(recogniser.unit()); CELLS]?;
        Ok(Trial {
            recogniser,
            cells,
            dice: Dice::new(SEED),
            heap,
        })
    }

    // Works an edit, and tells what it asked for.
    fn edit(&mut self, sheet: &mut Sheet, mode: Mode) -> Result<u64, Fault> {
        let before = self.recogniser.asked();
        let edit = draw(&mut self.dice, sheet.len());
        sheet.work(self.cells.as_mut_slice(), &mut self.recogniser, mode, edit)?;
        Ok(self.recogniser.asked().wrapping_sub(before))
    }

    // Whether a tree agrees with its list; tells whether the range compared lights lamp 0.
    fn agrees(&mut self, sheet: &Sheet) -> Result<bool, Fault> {
        agrees(
            self.cells.as_slice(),
            &mut self.recogniser,
            &mut self.dice,
            sheet,
        )
    }

    // A copy of a tree and of its list.
    fn copied(&mut self, sheet: &Sheet) -> Result<Sheet, Fault> {
        let copied = copy(self.cells.as_mut_slice(), sheet.unused, sheet.root).ok_or(
            Fault::Refused,
        )?;
        let mut other = Sheet::new(self.heap, copied.unused);
        other.root = copied.root;
        other.rows.extend_from_slice(sheet.rows.as_slice())?;
        Ok(other)
    }

    // Works edits that ask for nothing.
    fn edit_quietly(&mut self, sheet: &mut Sheet) -> Result<(), Fault> {
        for _ in 0..QUIET {
            let spent = self.edit(sheet, Mode::Quiet)?;
            ask(spent == 0, Fault::Costly)?;
        }
        Ok(())
    }

    // Computes the products of a tree anew, two for each row.
    fn renew(&mut self, sheet: &Sheet) -> Result<(), Fault> {
        let before = self.recogniser.asked();
        recompute(self.cells.as_mut_slice(), &mut self.recogniser, sheet.root).ok_or(
            Fault::Refused,
        )?;
        let spent = self.recogniser.asked().wrapping_sub(before);
        ask(spent == u64::from(sheet.len()) * 2, Fault::Costly)
    }

    // Copies a tree, edits the copy quietly, computes its products anew, and frees it.
    fn try_copy(&mut self, sheet: &mut Sheet) -> Result<(), Fault> {
        let mut other = self.copied(sheet)?;
        self.agrees(&other)?;
        self.edit_quietly(&mut other)?;
        self.renew(&other)?;
        self.agrees(&other)?;
        sheet.unused = free_tree(self.cells.as_mut_slice(), other.unused, other.root).ok_or(
            Fault::Refused,
        )?;
        Ok(())
    }

    // One edit, with what comes after it; tells what it asked for, and whether the range compared lights lamp 0.
    fn turn(&mut self, sheet: &mut Sheet, copies: bool) -> Result<(Spent, bool), Fault> {
        let bound = edit_bound(sheet.len());
        let spent = self.edit(sheet, Mode::Asking)?;
        ask(spent <= bound, Fault::Costly)?;
        if copies {
            self.try_copy(sheet)?;
        }
        let lit = self.agrees(sheet)?;
        Ok((Spent { spent, bound }, lit))
    }

    // Works the edits of the trial, until one is at fault.
    fn run(&mut self, met: &mut Met) -> Result<(), Fault> {
        let unused = make_unused(self.cells.as_mut_slice());
        let mut sheet = Sheet::new(self.heap, unused);
        for number in 1..=EDITS {
            met.edits = number;
            let (spent, lit) = self.turn(&mut sheet, number % COPIED == 0)?;
            met.add(spent, lit);
        }
        Ok(())
    }
}

// Works a trial under a recogniser: what it met, and the fault at which it ended early, if any.
pub fn run<R: Recogniser + Drop>(heap: Global, recogniser: R) -> (Met, Result<(), Fault>) {
    let mut met = Met::nothing();
    let ended = Trial::new(heap, recogniser).and_then(|mut trial| trial.run(&mut met));
    (met, ended)
}
