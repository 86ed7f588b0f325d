ghost use Rattle.std.specs.Prelude.{◌<◌, IfSome, vec_len};

use crate::fault::Fault;
use checks::verdict::ask;
use plain::call::Call;
use plain::refusal::Refusal;
use plain::state::State;
use rows::kind::Kind;
use std::alloc::Global;

// How many sheets a book holds.
const MOST_SHEETS: usize = 8;

// A sheet as a plain list of its rows.
#[derive(Drop)]
pub struct List {
    tag: u32,
    state: State,
    rows: Vec<Kind>,
}

// The sheets of a book as plain lists, which know nothing of cells.
#[derive(Drop)]
pub struct Lists {
    capacity: u64,
    lists: Vec<List>,
}

fn is_tag(tag: u32) -> Result<(), Refusal> {
    ask((1..10_000).contains(&tag), Refusal::TagOutOfRange)
}

// Whether a row is one of so many.
fn is_row(row: u32, rows: u64) -> Result<(), Refusal> {
    ask((1..=rows).contains(&u64::from(row)), Refusal::RowOutOfRange)
}

// Whether rows are among so many, or are none between or beside them.
fn is_range(first: u32, last: u32, rows: u64) -> Result<(), Refusal> {
    let first = u64::from(first);
    let last = u64::from(last);
    ask(
        first != 0 && first - 1 <= last && first - 1 <= rows && last <= rows,
        Refusal::RowOutOfRange,
    )
}

impl Lists {
    pub fn new(heap: Global, capacity: u64) -> Lists {
        Lists {
            capacity,
            lists: Vec::new(heap),
        }
    }

    // How many sheets there are.
    pub fn count(&self) -> usize {
        self.lists.len()
    }

    // The tag of the sheet at a place, if there is one.
    pub fn tag_at(&self, at: usize) -> Option<u32> {
        Some(self.lists.get(at)?.tag)
    }

    // Where the sheet of a tag stands.
    fn place(&self, tag: u32) -> Option<usize>
        ensures within { IfSome result (λ at. at < vec_len self.now.lists) }
    {
        self.lists.iter().position(|list| list.tag == tag)
    }

    fn list(&self, tag: u32) -> Option<&List> {
        self.lists.iter().find(|list| list.tag == tag)
    }

    fn list_mut(&mut self, tag: u32) -> Result<&mut List, Fault> {
        let at = self.place(tag).ok_or(Fault::Number)?;
        self.lists.get_mut(at).ok_or(Fault::Number)
    }

    pub fn has(&self, tag: u32) -> bool {
        self.list(tag).is_some()
    }

    // Whether the sheet of a tag is in a state.
    pub fn is_in(&self, tag: u32, state: State) -> bool {
        self.list(tag).is_some_and(|list| list.state == state)
    }

    // How many rows the sheet of a tag has.
    pub fn rows(&self, tag: u32) -> u64 {
        self.list(tag).map_or(0, |list| list.rows.len() as u64)
    }

    // How many rows all sheets have.
    fn total(&self) -> u64 {
        self.lists.iter().fold(
            0u64,
            |total, list| total.saturating_add(list.rows.len() as u64),
        )
    }

    fn stands(&self, tag: u32) -> Result<(), Refusal> {
        is_tag(tag)?;
        ask(self.has(tag), Refusal::NoSuchSheet)
    }

    fn is_free(&self, new: u32) -> Result<(), Refusal> {
        ask(!self.has(new), Refusal::TagInUse)
    }

    fn is_fewer(&self) -> Result<(), Refusal> {
        ask(self.lists.len() < MOST_SHEETS, Refusal::TooManySheets)
    }

    fn is_settled(&self, tag: u32) -> Result<(), Refusal> {
        ask(self.is_in(tag, State::Settled), Refusal::NotSettled)
    }

    fn is_paused(&self, tag: u32) -> Result<(), Refusal> {
        ask(self.is_in(tag, State::Paused), Refusal::NotPaused)
    }

    fn fits(&self, more: u64) -> Result<(), Refusal> {
        ask(
            self.total().saturating_add(more) <= self.capacity,
            Refusal::NoRoom,
        )
    }

    // What a call is refused with, if it is.
    pub fn refusal(&self, call: Call) -> Result<(), Refusal> {
        match call {
            Call::Open { tag } => {
                is_tag(tag)?;
                self.is_free(tag)?;
                self.is_fewer()
            }
            Call::Copy { tag, new } => {
                is_tag(tag)?;
                is_tag(new)?;
                self.stands(tag)?;
                self.is_free(new)?;
                self.is_fewer()?;
                self.is_settled(tag)?;
                self.fits(self.rows(tag))
            }
            Call::Rename { tag, new } => {
                is_tag(tag)?;
                is_tag(new)?;
                self.stands(tag)?;
                self.is_free(new)?;
                self.is_settled(tag)
            }
            Call::Insert { tag, row, .. } => {
                self.stands(tag)?;
                is_row(row, self.rows(tag).saturating_add(1))?;
                self.fits(1)
            }
            Call::Strike { tag, row } | Call::Replace { tag, row, .. } => {
                self.stands(tag)?;
                is_row(row, self.rows(tag))
            }
            Call::Close { tag } | Call::Whole { tag } | Call::Pause { tag } => {
                self.stands(tag)?;
                self.is_settled(tag)
            }
            Call::Range { tag, first, last } => {
                self.stands(tag)?;
                self.is_settled(tag)?;
                is_range(first, last, self.rows(tag))
            }
            Call::Recalculate { tag } => {
                self.stands(tag)?;
                self.is_paused(tag)
            }
        }
    }

    // The rows whose lamps a call asks for; none where it asks for no lamps.
    pub fn named(&self, call: Call) -> Option<&[Kind]> {
        match call {
            Call::Whole { tag } => Some(self.list(tag)?.rows.as_slice()),
            Call::Range { tag, first, last } => {
                let from = (first as usize).saturating_sub(1);
                self.list(tag)?.rows.as_slice().get(from..last as usize)
            }
            _ => None,
        }
    }

    // Does what a call does that is accepted.
    pub fn work(&mut self, heap: Global, call: Call) -> Result<(), Fault> {
        match call {
            Call::Open { tag } => self.add(tag, Vec::new(heap)),
            Call::Copy { tag, new } => {
                let rows = self.copied(heap, tag)?;
                self.add(new, rows)
            }
            Call::Close { tag } => self.remove(tag),
            Call::Rename { tag, new } => {
                self.list_mut(tag)?.tag = new;
                Ok(())
            }
            Call::Pause { tag } => self.set_state(tag, State::Paused),
            Call::Recalculate { tag } => self.set_state(tag, State::Settled),
            Call::Insert { tag, row, kind } => self.list_mut(tag)?.insert(row, kind),
            Call::Strike { tag, row } => self.list_mut(tag)?.strike(row),
            Call::Replace { tag, row, kind } => self.list_mut(tag)?.replace(row, kind),
            Call::Whole { .. } | Call::Range { .. } => Ok(()),
        }
    }

    fn add(&mut self, tag: u32, rows: Vec<Kind>) -> Result<(), Fault> {
        self.lists.push(List {
            tag,
            state: State::Settled,
            rows,
        })?;
        Ok(())
    }

    fn remove(&mut self, tag: u32) -> Result<(), Fault> {
        let at = self.place(tag).ok_or(Fault::Number)?;
        self.lists.remove(at);
        Ok(())
    }

    fn copied(&self, heap: Global, tag: u32) -> Result<Vec<Kind>, Fault> {
        let list = self.list(tag).ok_or(Fault::Number)?;
        let mut rows = Vec::new(heap);
        rows.extend_from_slice(list.rows.as_slice())?;
        Ok(rows)
    }

    fn set_state(&mut self, tag: u32, state: State) -> Result<(), Fault> {
        self.list_mut(tag)?.state = state;
        Ok(())
    }
}

// Rows are counted from 1. Each trial has these over a fault of its own.
impl List {
    fn insert(&mut self, row: u32, kind: Kind) -> Result<(), Fault> {
        let index = (row as usize).saturating_sub(1);
        if index > self.rows.len() {
            return Err(Fault::Number);
        }
        self.rows.insert(index, kind)?;
        Ok(())
    }

    fn strike(&mut self, row: u32) -> Result<(), Fault> {
        let index = (row as usize).saturating_sub(1);
        if index >= self.rows.len() {
            return Err(Fault::Number);
        }
        self.rows.remove(index);
        Ok(())
    }

    fn replace(&mut self, row: u32, kind: Kind) -> Result<(), Fault> {
        let index = (row as usize).saturating_sub(1);
        *self.rows.get_mut(index).ok_or(Fault::Number)? = kind;
        Ok(())
    }
}
