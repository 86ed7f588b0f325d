use crate::lists::Lists;
use dice::dice::Dice;
use plain::call::Call;

// Dice and lists are the trial's, and lent to each draw.

// Tags that sheets are given: so many from 1 on.
const TAGS: u16 = 15;

// A tag without regard to the sheets, seldom one that no sheet can have.
fn any_tag(dice: &mut Dice) -> u32 {
    match dice.below(24) {
        0 => 0,
        1 => 10_000,
        2 => 9_999,
        _ => u32::from(dice.below(TAGS)).saturating_add(1),
    }
}

// The tag of a sheet, or seldom any.
fn sheet_tag(dice: &mut Dice, lists: &Lists) -> u32 {
    let count = u16::try_from(lists.count()).unwrap_or(u16::MAX);
    if count == 0 || dice.below(8) == 0 {
        return any_tag(dice);
    }
    lists.tag_at(usize::from(dice.below(count))).unwrap_or(1)
}

// A row of so many, or one at or beyond their bounds.
fn row(dice: &mut Dice, rows: u32) -> u32 {
    let inside = u16::try_from(rows).unwrap_or(u16::MAX);
    match dice.below(10) {
        0 => 0,
        1 => rows,
        2 => rows.saturating_add(1),
        3 => rows.saturating_add(2),
        _ => u32::from(dice.below(inside)).saturating_add(1),
    }
}

// The last row of a range that begins at a row.
fn last_row(dice: &mut Dice, rows: u32, first: u32) -> u32 {
    match dice.below(4) {
        0 => first.saturating_sub(1),
        1 => rows,
        2 => first.saturating_add(u32::from(dice.below(6))),
        _ => row(dice, rows),
    }
}

// How many rows the sheet of a tag has.
fn rows_of(lists: &Lists, tag: u32) -> u32 {
    u32::try_from(lists.rows(tag)).unwrap_or(u32::MAX)
}

// A call that opens, copies or renames a sheet, closes it or pauses it.
fn draw_sheet(dice: &mut Dice, lists: &Lists) -> Call {
    let tag = sheet_tag(dice, lists);
    let new = any_tag(dice);
    match dice.below(16) {
        0..=1 => Call::Open { tag: new },
        2..=5 => Call::Copy { tag, new },
        6..=8 => Call::Rename { tag, new },
        9..=10 => Call::Close { tag },
        11..=12 => Call::Pause { tag },
        _ => Call::Recalculate {
            tag: tag.clamp(1, 9_999),
        },
    }
}

// A call on the rows of a sheet.
fn draw_rows(dice: &mut Dice, lists: &Lists) -> Call {
    let tag = sheet_tag(dice, lists);
    let rows = rows_of(lists, tag);
    let row = row(dice, rows);
    let kind = dice.kind();
    match dice.below(16) {
        0..=5 => Call::Insert { tag, row, kind },
        6..=7 => Call::Strike { tag, row },
        8..=10 => Call::Replace { tag, row, kind },
        11..=12 => Call::Whole { tag },
        _ => {
            let last = last_row(dice, rows, row);
            Call::Range {
                tag,
                first: row,
                last,
            }
        }
    }
}

// A call on the sheets of a book; many are declined.
pub fn draw(dice: &mut Dice, lists: &Lists) -> Call {
    if dice.below(3) == 0 {
        draw_sheet(dice, lists)
    } else {
        draw_rows(dice, lists)
    }
}
