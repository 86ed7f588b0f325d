use crate::edit::Edit;
use crate::fault::Fault;
use cells::cell::Cell;
use cells::mode::Mode;
use edits::insert::insert;
use edits::replace::replace;
use edits::strike::strike;
use monoid::recogniser::Recogniser;
use rows::kind::Kind;
use std::alloc::Global;
use unused::list::{Unused, give_cell, take_cell};

// A tree in cells with the unused ones, and the plain list of its rows.
#[derive(Drop)]
pub struct Sheet {
    pub root: Option<u16>,
    pub unused: Unused,
    pub rows: Vec<Kind>,
}

// Cells, recogniser and mode are lent for an edit: they are the trial's.
impl Sheet {
    pub fn new(heap: Global, unused: Unused) -> Sheet {
        Sheet {
            root: None,
            unused,
            rows: Vec::new(heap),
        }
    }

    // How many rows the list has.
    pub fn len(&self) -> u16 {
        u16::try_from(self.rows.len()).unwrap_or(u16::MAX)
    }

    // Works an edit on the tree and on the list.
    pub fn work<R: Recogniser>(
        &mut self,
        cells: &mut [Cell<R::Element>],
        recogniser: &mut R,
        mode: Mode,
        edit: Edit,
    ) -> Result<(), Fault> {
        match edit {
            Edit::Insert { index, kind } => self.insert(cells, recogniser, mode, index, kind),
            Edit::Strike { index } => self.strike(cells, recogniser, mode, index),
            Edit::Replace { index, kind } => self.replace(cells, recogniser, mode, index, kind),
        }
    }

    fn insert<R: Recogniser>(
        &mut self,
        cells: &mut [Cell<R::Element>],
        recogniser: &mut R,
        mode: Mode,
        index: u16,
        kind: Kind,
    ) -> Result<(), Fault> {
        let taken = take_cell(cells, self.unused).ok_or(Fault::Refused)?;
        self.root = insert(cells, recogniser, mode, self.root, index, kind, taken.place).ok_or(
            Fault::Refused,
        )?;
        self.unused = taken.rest;
        insert_row(&mut self.rows, usize::from(index), kind)
    }

    fn strike<R: Recogniser>(
        &mut self,
        cells: &mut [Cell<R::Element>],
        recogniser: &mut R,
        mode: Mode,
        index: u16,
    ) -> Result<(), Fault> {
        let struck = strike(cells, recogniser, mode, self.root, index).ok_or(Fault::Refused)?;
        self.root = struck.root;
        self.unused = give_cell(cells, self.unused, struck.freed).ok_or(Fault::Refused)?;
        strike_row(&mut self.rows, usize::from(index))
    }

    fn replace<R: Recogniser>(
        &mut self,
        cells: &mut [Cell<R::Element>],
        recogniser: &mut R,
        mode: Mode,
        index: u16,
        kind: Kind,
    ) -> Result<(), Fault> {
        let root = replace(cells, recogniser, mode, self.root, index, kind).ok_or(Fault::Refused)?;
        self.root = Some(root);
        *self.rows.get_mut(usize::from(index)).ok_or(Fault::Differs)? = kind;
        Ok(())
    }
}

// The list's own insertion, where the place is in the list; each trial has it over a fault of its own.
fn insert_row(rows: &mut Vec<Kind>, index: usize, kind: Kind) -> Result<(), Fault> {
    if index > rows.len() {
        return Err(Fault::Differs);
    }
    rows.insert(index, kind)?;
    Ok(())
}

fn strike_row(rows: &mut Vec<Kind>, index: usize) -> Result<(), Fault> {
    if index >= rows.len() {
        return Err(Fault::Differs);
    }
    rows.remove(index);
    Ok(())
}
