use crate::scatter::{scattered, scattered_kind};
use cells::cell::Cell;
use cells::mode::Mode;
use edits::insert::insert;
use edits::replace::replace;
use edits::strike::strike;
use monoid::recogniser::Recogniser;
use ranges::range::range;
use unused::list::{Unused, give_cell, make_unused, take_cell};

// A tree under a recogniser of its own: its root, the unused cells, how many rows it has, and how many of its ranges lit
// lamp 0. These are counted so that no compiler can leave a range out. Its cells are lent for a step: a tree that held them
// would be moved with them, and so many do not fit a small stack twice.
#[derive(Drop)]
pub(crate) struct Tree<R: Recogniser> {
    recogniser: R,
    root: Option<u16>,
    unused: Unused,
    rows: u16,
    lit: u64,
}

impl<R: Recogniser + Drop> Tree<R> {
    // No rows, and no cell to put one in yet.
    pub(crate) fn new(recogniser: R) -> Tree<R> {
        Tree {
            recogniser,
            root: None,
            unused: Unused { first: None },
            rows: 0,
            lit: 0,
        }
    }

    // A cell that holds no row of it.
    pub(crate) fn blank(&self) -> Cell<R::Element> {
        Cell::blank(self.recogniser.unit())
    }

    // The products asked for so far.
    pub(crate) fn asked(&self) -> u64 {
        self.recogniser.asked()
    }

    pub(crate) fn lit(&self) -> u64 {
        self.lit
    }

    // No rows again, and as many unused cells as so many rows need: to make more unused would count as work on the tree.
    pub(crate) fn clear(&mut self, cells: &mut [Cell<R::Element>], rows: u16) {
        let needed = usize::from(rows).min(cells.len());
        self.unused = make_unused(&mut cells[..needed]);
        self.root = None;
        self.rows = 0;
    }

    // Takes the same step in each turn; none where it is refused in one.
    pub(crate) fn work<F: FnMut(&mut Tree<R>, &mut [Cell<R::Element>], u64) -> Option<()>>(
        &mut self,
        cells: &mut [Cell<R::Element>],
        mut step: F,
        turns: u64,
    ) -> Option<()>
        requires { F.IsAlwaysCallable step }
    {
        for turn in 0..turns {
            step(self, cells, turn)?;
        }
        Some(())
    }

    // The most products that one turn of a step asks for.
    pub(crate) fn worst<F: FnMut(&mut Tree<R>, &mut [Cell<R::Element>], u64) -> Option<()>>(
        &mut self,
        cells: &mut [Cell<R::Element>],
        mut step: F,
        turns: u64,
    ) -> Option<u64>
        requires { F.IsAlwaysCallable step }
    {
        let mut worst = 0;
        for turn in 0..turns {
            let before = self.asked();
            step(self, cells, turn)?;
            worst = self.asked().wrapping_sub(before).max(worst);
        }
        Some(worst)
    }

    // A tree of so many rows, inserted one by one.
    pub(crate) fn build(&mut self, cells: &mut [Cell<R::Element>], rows: u16) -> Option<()> {
        self.clear(cells, rows);
        self.work(cells, Tree::insert, u64::from(rows))
    }

    // Inserts a row at a place of the turn's.
    pub(crate) fn insert(&mut self, cells: &mut [Cell<R::Element>], turn: u64) -> Option<()> {
        let taken = take_cell(cells, self.unused)?;
        self.root = insert(
            cells,
            &mut self.recogniser,
            Mode::Asking,
            self.root,
            scattered(turn, self.rows.saturating_add(1)),
            scattered_kind(turn),
            taken.place,
        )?;
        self.unused = taken.rest;
        self.rows = self.rows.saturating_add(1);
        Some(())
    }

    // Strikes a row of the turn's.
    pub(crate) fn strike(&mut self, cells: &mut [Cell<R::Element>], turn: u64) -> Option<()> {
        let struck = strike(
            cells,
            &mut self.recogniser,
            Mode::Asking,
            self.root,
            scattered(turn, self.rows),
        )?;
        self.root = struck.root;
        self.unused = give_cell(cells, self.unused, struck.freed)?;
        self.rows = self.rows.saturating_sub(1);
        Some(())
    }

    // Replaces a row of the turn's.
    pub(crate) fn replace(&mut self, cells: &mut [Cell<R::Element>], turn: u64) -> Option<()> {
        replace(
            cells,
            &mut self.recogniser,
            Mode::Asking,
            self.root,
            scattered(turn, self.rows),
            scattered_kind(turn),
        )?;
        Some(())
    }

    // Asks for a range of the turn's.
    pub(crate) fn range(&mut self, cells: &mut [Cell<R::Element>], turn: u64) -> Option<()> {
        let one = scattered(turn, self.rows.saturating_add(1));
        let other = scattered(turn.wrapping_mul(5), self.rows.saturating_add(1));
        let product = range(
            cells,
            &mut self.recogniser,
            self.root,
            one.min(other),
            one.max(other),
        )?;
        let lit = self.recogniser.lit(product, 0);
        self.lit = self.lit.saturating_add(u64::from(lit));
        Some(())
    }
}
