// All trees are under the first panel. Each function gives the products that were asked for, or the largest number where
// something was refused: what C calls gives no Option. The cells stand here, as many as are ever put to use, and are lent.
use crate::fold::{fold_turns, scatter_rows};
use crate::tree::Tree;
use cells::cell::Cell;
use heights::height::most_height;
use monoid::recogniser::Recogniser;
use panels::panels::{PanelOne, panel_one};
use rows::kind::Kind;
use unused::list::MOST_CELLS;

const REFUSED: u64 = u64::MAX;

type Element = <PanelOne as Recogniser>::Element;

// Builds a tree of so many rows in each turn, and strikes all its rows again if asked.
fn build_turns(
    tree: &mut Tree<PanelOne>,
    cells: &mut [Cell<Element>],
    rows: u16,
    struck: bool,
    turns: u64,
) -> Option<u64> {
    for _ in 0..turns {
        tree.build(cells, rows)?;
        if struck {
            tree.work(cells, Tree::strike, u64::from(rows))?;
        }
    }
    Some(tree.asked())
}

// Builds a tree, and replaces a row of it in each turn.
fn replace_turns(
    tree: &mut Tree<PanelOne>,
    cells: &mut [Cell<Element>],
    rows: u16,
    turns: u64,
) -> Option<u64> {
    tree.build(cells, rows)?;
    tree.work(cells, Tree::replace, turns)?;
    Some(tree.asked())
}

// The most products that an edit asks for, while a tree is built, its rows are replaced, and they are struck.
fn most_of_edits(tree: &mut Tree<PanelOne>, cells: &mut [Cell<Element>], rows: u16) -> Option<u64> {
    tree.clear(cells, u16::MAX);
    let turns = u64::from(rows);
    let insert = tree.worst(cells, Tree::insert, turns)?;
    let replace = tree.worst(cells, Tree::replace, turns)?;
    let strike = tree.worst(cells, Tree::strike, turns)?;
    Some(insert.max(replace).max(strike))
}

// The most products that a range asks for.
fn most_of_ranges(
    tree: &mut Tree<PanelOne>,
    cells: &mut [Cell<Element>],
    rows: u16,
) -> Option<u64> {
    tree.build(cells, rows)?;
    tree.worst(cells, Tree::range, u64::from(rows))
}

#[unsafe(no_mangle)]
pub extern "C" fn trees_built(rows: u16, struck: bool, turns: u64) -> u64 {
    let mut tree = Tree::new(panel_one());
    let mut cells = [tree.blank(); MOST_CELLS];
    build_turns(&mut tree, &mut cells, rows, struck, turns).unwrap_or(REFUSED)
}

#[unsafe(no_mangle)]
pub extern "C" fn rows_replaced(rows: u16, turns: u64) -> u64 {
    let mut tree = Tree::new(panel_one());
    let mut cells = [tree.blank(); MOST_CELLS];
    replace_turns(&mut tree, &mut cells, rows, turns).unwrap_or(REFUSED)
}

// Builds a tree, and asks for a range of it in each turn; counts those that light lamp 0.
#[unsafe(no_mangle)]
pub extern "C" fn ranges_asked(rows: u16, turns: u64, lit: &mut u64) -> u64 {
    let mut tree = Tree::new(panel_one());
    let mut cells = [tree.blank(); MOST_CELLS];
    if tree.build(&mut cells, rows).is_none() {
        return REFUSED;
    }
    let done = tree.work(&mut cells, Tree::range, turns);
    *lit = tree.lit();
    done.map_or(REFUSED, |()| tree.asked())
}

// Folds so many rows anew in each turn; counts the folds that light lamp 0.
#[unsafe(no_mangle)]
pub extern "C" fn rows_folded(rows: u16, turns: u64, lit: &mut u64) -> u64 {
    let mut recogniser = panel_one();
    let mut word = [Kind::Blank; MOST_CELLS];
    scatter_rows(&mut word);
    let length = usize::from(rows).min(MOST_CELLS);
    *lit = fold_turns(&mut recogniser, &word[..length], turns);
    recogniser.asked()
}

#[unsafe(no_mangle)]
pub extern "C" fn worst_edit(rows: u16) -> u64 {
    let mut tree = Tree::new(panel_one());
    let mut cells = [tree.blank(); MOST_CELLS];
    most_of_edits(&mut tree, &mut cells, rows).unwrap_or(REFUSED)
}

#[unsafe(no_mangle)]
pub extern "C" fn worst_range(rows: u16) -> u64 {
    let mut tree = Tree::new(panel_one());
    let mut cells = [tree.blank(); MOST_CELLS];
    most_of_ranges(&mut tree, &mut cells, rows).unwrap_or(REFUSED)
}

// The greatest height of a balanced tree of so many rows, from which the bounds come.
#[unsafe(no_mangle)]
pub extern "C" fn greatest_height(rows: u16) -> u8 {
    most_height(rows)
}
