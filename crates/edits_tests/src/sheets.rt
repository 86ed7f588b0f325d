ghost use Rattle.std.specs.Prelude.{◌≡◌, ◌<◌};
ghost use Rattle.edits_tests.specs.Free.{every_place, places_of, GivesEveryPlace, KeepsAllButTheLast};

use crate::ends::{Ends, Pair};
use crate::fault::Fault;
use crate::plain::{Plain, ROOM};
use cells::cell::Cell;
use cells::mode::Mode;
use cells::reach::look;
use cells::stretch::stretch_at;
use dice::dice::Dice;
use edits::find::find;
use edits::insert::insert;
use edits::replace::replace;
use edits::strike::strike;
use monoid::fold::word_image;
use monoid::recogniser::Recogniser;
use rows::kind::Kind;
use std::alloc::Global;
use std::array;

// Whether a row of a tree is that of the list, balanced, with the right measures and, if asked, the right product.
fn row_agrees(
    cells: &[Cell<Pair>],
    ends: &mut Ends,
    place: u16,
    index: u16,
    rows: &[Kind],
    products: bool,
) -> Option<bool> {
    let cell = look(cells, place)?;
    let unit = ends.unit();
    let left = stretch_at(cells, cell.left, unit)?;
    let right = stretch_at(cells, cell.right, unit)?;
    let even = left.height.abs_diff(right.height) <= 1;
    let high = u16::from(cell.height) == u16::from(left.height.max(right.height)) + 1;
    let wide = u32::from(cell.size) == u32::from(left.size) + u32::from(right.size) + 1;
    let first = usize::from(index).checked_sub(usize::from(left.size))?;
    let stretch = rows.get(first..first.checked_add(usize::from(cell.size))?)?;
    let whole = word_image(ends, stretch);
    let kind = *rows.get(usize::from(index))?;
    Some(even && high && wide && cell.kind == kind && (!products || cell.product == whole))
}

// That a tree has the rows of the list, and no others.
pub fn agrees(
    cells: &[Cell<Pair>],
    ends: &mut Ends,
    sheet: &Sheet,
    products: bool,
) -> Result<(), Fault> {
    let len = sheet.plain.len();
    for index in 0..len {
        let found = find(cells, sheet.root, index).ok_or(Fault::Differs)?;
        if row_agrees(
            cells,
            ends,
            found.place,
            index,
            sheet.plain.rows(),
            products,
        ) != Some(true)
        {
            return Err(Fault::Differs);
        }
    }
    match find(cells, sheet.root, len) {
        None => Ok(()),
        Some(_) => Err(Fault::Differs),
    }
}

// One tree in cells that others share, and the plain list of its rows. Cells, recogniser and mode are lent for an edit, and
// the free cells are a list of their own: edits are tested without the crate `unused`.
#[derive(Clone, Copy)]
pub struct Sheet {
    pub root: Option<u16>,
    pub plain: Plain,
}

// Cells that no tree has. An array with a count and no Vec, as a plain list is.
#[derive(Clone, Copy)]
pub struct Free {
    places: [u16; ROOM],
    count: usize,
}

// The place of a cell, by its number.
fn place_of(number: usize) -> u16
    requires fits { number < 65536 }
    ensures value { result ≡ number }
{
    number as u16
}

impl Free {
    // All of them.
    pub fn all() -> Free
        ensures places { places_of result ≡ every_place }
    {
        Free {
            places: array::from_fn(place_of),
            count: ROOM,
        }
    }

    // One place, or none.
    fn of(place: Option<u16>) -> Free {
        let mut free = Free {
            places: [0; ROOM],
            count: 0,
        };
        if let Some(place) = place {
            free.give(place);
        }
        free
    }

    // The places, the last of which is taken first.
    fn places(&self) -> &[u16]
        ensures value { result.now ≡ places_of self.now }
    {
        &self.places[..self.count.min(ROOM)]
    }

    fn take(&mut self) -> Option<u16> {
        self.count = self.count.checked_sub(1)?;
        self.places.get(self.count).copied()
    }

    fn give(&mut self, place: u16) {
        if let Some(last) = self.places.get_mut(self.count) {
            *last = place;
            self.count += 1;
        }
    }
}

// The places of all cells, none of which a tree has.
pub fn all_free(heap: Global) -> Result<Vec<u16>, Fault>
    ensures places { GivesEveryPlace result }
{
    let all = Free::all();
    let mut free = Vec::new(heap);
    for place in all.places() {
        free.push(*place)?;
    }
    Ok(free)
}

impl Sheet {
    pub fn new() -> Sheet {
        Sheet {
            root: None,
            plain: Plain::new(),
        }
    }

    // One edit of any kind at any row, the free cells in a list of any length, of which the last is taken first. A sheet has
    // room for 48 rows: where it has as many, as where no cell is free, an insertion does nothing.
    pub fn edit(
        &mut self,
        cells: &mut [Cell<Pair>],
        ends: &mut Ends,
        mode: Mode,
        dice: &mut Dice,
        free: &mut Vec<u16>,
    ) -> Result<(), Fault>
        ensures others { KeepsAllButTheLast free.old.items free.new.items }
    {
        let last = if usize::from(self.plain.len()) < ROOM {
            free.pop()
        } else {
            None
        };
        let mut lent = Free::of(last);
        let edited = self.edit_without_heap(cells, ends, mode, dice, &mut lent);
        for given in lent.places() {
            free.push(*given)?;
        }
        edited
    }

    // One edit of any kind at any row, the free cells in an array: no heap is asked.
    pub fn edit_without_heap(
        &mut self,
        cells: &mut [Cell<Pair>],
        ends: &mut Ends,
        mode: Mode,
        dice: &mut Dice,
        free: &mut Free,
    ) -> Result<(), Fault> {
        let len = self.plain.len();
        let kind = dice.kind();
        match dice.below(5) {
            0 | 1 => {
                let index = dice.below(len.saturating_add(1));
                self.insert(cells, ends, mode, index, kind, free)
            }
            2 | 3 if len > 0 => {
                let index = dice.below(len);
                self.strike(cells, ends, mode, index, free)
            }
            _ if len > 0 => {
                let index = dice.below(len);
                self.replace(cells, ends, mode, index, kind)
            }
            _ => Ok(()),
        }
    }

    fn insert(
        &mut self,
        cells: &mut [Cell<Pair>],
        ends: &mut Ends,
        mode: Mode,
        index: u16,
        kind: Kind,
        free: &mut Free,
    ) -> Result<(), Fault> {
        let Some(place) = free.take() else {
            return Ok(());
        };
        self.root = insert(cells, ends, mode, self.root, index, kind, place).ok_or(Fault::Refused)?;
        if index > self.plain.len() {
            return Err(Fault::Differs);
        }
        self.plain.insert(index, kind);
        Ok(())
    }

    fn strike(
        &mut self,
        cells: &mut [Cell<Pair>],
        ends: &mut Ends,
        mode: Mode,
        index: u16,
        free: &mut Free,
    ) -> Result<(), Fault> {
        let struck = strike(cells, ends, mode, self.root, index).ok_or(Fault::Refused)?;
        self.root = struck.root;
        if index >= self.plain.len() {
            return Err(Fault::Differs);
        }
        self.plain.strike(index);
        free.give(struck.freed);
        Ok(())
    }

    fn replace(
        &mut self,
        cells: &mut [Cell<Pair>],
        ends: &mut Ends,
        mode: Mode,
        index: u16,
        kind: Kind,
    ) -> Result<(), Fault> {
        replace(cells, ends, mode, self.root, index, kind).ok_or(Fault::Refused)?;
        if index >= self.plain.len() {
            return Err(Fault::Differs);
        }
        self.plain.replace(index, kind);
        Ok(())
    }
}

#[cfg(test)]
mod tests {
    use super::*;
    use monoid::tally::Tally;
    use std::test::Fail;

    fn ends() -> Ends {
        Ends {
            tally: Tally::new(),
        }
    }

    fn blank() -> Cell<Pair> {
        Cell::blank(Pair::NONE)
    }

    #[test]
    fn two_trees_follow_their_lists() -> Result<(), Fail> {
        let mut cells = [blank(); ROOM];
        let mut ends = ends();
        let mut dice = Dice::new(7);
        let mut free = Free::all();
        let mut one = Sheet::new();
        let mut other = Sheet::new();
        for _ in 0..1000 {
            one.edit_without_heap(&mut cells, &mut ends, Mode::Asking, &mut dice, &mut free)?;
            other.edit_without_heap(&mut cells, &mut ends, Mode::Asking, &mut dice, &mut free)?;
            agrees(&cells, &mut ends, &one, true)?;
            agrees(&cells, &mut ends, &other, true)?;
        }
        Ok(())
    }

    #[test]
    fn quiet_edits_ask_for_nothing(rt: HostRuntime) -> Result<(), Fail> {
        let mut cells = [blank(); ROOM];
        let mut ends = ends();
        let mut dice = Dice::new(11);
        let mut free = Free::all();
        let mut one = Sheet::new();
        for _ in 0..500 {
            let before = ends.asked();
            one.edit_without_heap(&mut cells, &mut ends, Mode::Quiet, &mut dice, &mut free)?;
            assert_eq!(rt; ends.asked(), before);
            agrees(&cells, &mut ends, &one, false)?;
        }
        Ok(())
    }

    #[test]
    fn a_list_of_free_cells_does_as_the_array(rt: HostRuntime) -> Result<(), Fail> {
        let mut cells = [blank(); ROOM];
        let mut other_cells = [blank(); ROOM];
        let mut ends = ends();
        let mut dice = Dice::new(17);
        let mut other_dice = Dice::new(17);
        let mut free = all_free(rt.alloc())?;
        let mut other_free = Free::all();
        let mut one = Sheet::new();
        let mut other = Sheet::new();
        for _ in 0..1000 {
            one.edit(&mut cells, &mut ends, Mode::Asking, &mut dice, &mut free)?;
            other.edit_without_heap(
                &mut other_cells,
                &mut ends,
                Mode::Asking,
                &mut other_dice,
                &mut other_free,
            )?;
            agrees(&cells, &mut ends, &one, true)?;
            assert!(rt; one.root == other.root);
            assert!(rt; one.plain.rows() == other.plain.rows());
            assert!(rt; free.as_slice() == other_free.places());
        }
        Ok(())
    }

    // Whether an edit of a sheet leaves the same of a list of at most one free cell as of such an array, refused or not.
    fn leaves_the_same(
        heap: Global,
        sheet: Sheet,
        place: Option<u16>,
        seed: u32,
    ) -> Result<bool, Fault> {
        let mut cells = [blank(); ROOM];
        let mut other_cells = [blank(); ROOM];
        let mut free = Vec::new(heap);
        if let Some(place) = place {
            free.push(place)?;
        }
        let mut other_free = Free::of(place);
        let mut one = sheet;
        let mut other = sheet;
        let edited = one.edit(
            &mut cells,
            &mut ends(),
            Mode::Asking,
            &mut Dice::new(seed),
            &mut free,
        );
        let other_edited = other.edit_without_heap(
            &mut other_cells,
            &mut ends(),
            Mode::Asking,
            &mut Dice::new(seed),
            &mut other_free,
        );
        Ok(
            edited == other_edited
                && one.root == other.root
                && one.plain.rows() == other.plain.rows()
                && free.as_slice() == other_free.places(),
        )
    }

    // A row that no tree has: striking or replacing it is refused.
    #[test]
    fn a_refused_edit_leaves_the_list_as_the_array(rt: HostRuntime) -> Result<(), Fail> {
        let mut rootless = Sheet::new();
        rootless.plain.insert(0, Kind::Item);
        for seed in 0..40 {
            for sheet in [Sheet::new(), rootless] {
                for place in [None, Some(3)] {
                    assert!(rt; leaves_the_same(rt.alloc(), sheet, place, seed * 99_991)?);
                }
            }
        }
        Ok(())
    }

    #[test]
    fn a_row_past_the_room_of_a_sheet_is_not_inserted(rt: HostRuntime) -> Result<(), Fail> {
        let mut cells = [blank(); 60];
        let mut ends = ends();
        let mut dice = Dice::new(19);
        let mut free = all_free(rt.alloc())?;
        for place in 48..60 {
            free.push(place)?;
        }
        let mut one = Sheet::new();
        let mut longest = 0;
        for _ in 0..4000 {
            one.edit(&mut cells, &mut ends, Mode::Asking, &mut dice, &mut free)?;
            agrees(&cells, &mut ends, &one, true)?;
            assert_eq!(rt; one.plain.rows().len() + free.len(), 60);
            longest = one.plain.len().max(longest);
        }
        assert_eq!(rt; longest, 48);
        Ok(())
    }

    #[test]
    fn broken_cells_do_no_harm() -> Result<(), Fail> {
        let mut ends = ends();
        let mut dice = Dice::new(13);
        let mut cells = [blank(); ROOM];
        for _ in 0..500 {
            for cell in cells.iter_mut() {
                *cell = Cell {
                    left: Some(dice.below(60)),
                    right: Some(dice.below(60)),
                    height: if dice.below(2) == 0 { 0 } else { 255 },
                    size: dice.below(100),
                    ..blank()
                };
            }
            let index = dice.below(60);
            insert(
                &mut cells,
                &mut ends,
                Mode::Asking,
                Some(0),
                index,
                Kind::Item,
                3,
            );
            strike(&mut cells, &mut ends, Mode::Quiet, Some(1), index);
            replace(
                &mut cells,
                &mut ends,
                Mode::Asking,
                Some(2),
                index,
                Kind::Note,
            );
        }
        Ok(())
    }
}
