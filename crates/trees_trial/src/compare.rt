use crate::fault::Fault;
use crate::sheet::Sheet;
use cells::cell::Cell;
use cells::stretch::size_at;
use checks::verdict::ask;
use dice::dice::Dice;
use monoid::fold::word_lamps;
use monoid::lamps::Lamps;
use monoid::recogniser::Recogniser;
use ranges::range::{range, whole};
use rows::kind::Kind;

// Every other range is shorter than this: lamps that long ranges seldom light then tell something too.
const SHORT: u16 = 8;

// Some rows of a list: those from a first up to one before a last. No `Range`, which is not copied.
#[derive(Clone, Copy)]
struct Part {
    first: u16,
    last: u16,
}

impl Part {
    fn draw(dice: &mut Dice, rows: u16) -> Part {
        let first = dice.below(rows.saturating_add(1));
        let short = dice.below(2) == 0;
        let most = if short { SHORT } else { rows };
        let last = first.saturating_add(dice.below(most.saturating_add(1)));
        Part {
            first,
            last: last.min(rows),
        }
    }

    // The rows of a list that it names; a fault where they are not in it.
    fn of(self, rows: &[Kind]) -> Result<&[Kind], Fault> {
        rows.get(usize::from(self.first)..usize::from(self.last))
            .ok_or(Fault::Differs)
    }
}

// Cells and recogniser are the caller's and lent for a call, so they stand apart.

// Whether the whole of a tree lights the lamps of its list.
fn whole_agrees<R: Recogniser>(
    cells: &[Cell<R::Element>],
    recogniser: &mut R,
    sheet: &Sheet,
) -> Result<(), Fault> {
    let product = whole(cells, recogniser, sheet.root).ok_or(Fault::Refused)?;
    let shown = Lamps::of(recogniser, product);
    let anew = word_lamps(recogniser, sheet.rows.as_slice());
    ask(shown == anew, Fault::Differs)
}

// Whether a range of a tree lights the lamps of its rows in the list; tells whether lamp 0 is lit.
fn range_agrees<R: Recogniser>(
    cells: &[Cell<R::Element>],
    recogniser: &mut R,
    sheet: &Sheet,
    part: Part,
) -> Result<bool, Fault> {
    let product = range(cells, recogniser, sheet.root, part.first, part.last).ok_or(
        Fault::Refused,
    )?;
    let shown = Lamps::of(recogniser, product);
    let anew = word_lamps(recogniser, part.of(sheet.rows.as_slice())?);
    ask(shown == anew, Fault::Differs)?;
    Ok(shown.lights(0))
}

// Whether a tree has as many rows as its list, and lights its lamps, as a whole and in some range; tells whether that
// range lights lamp 0.
pub fn agrees<R: Recogniser>(
    cells: &[Cell<R::Element>],
    recogniser: &mut R,
    dice: &mut Dice,
    sheet: &Sheet,
) -> Result<bool, Fault> {
    ask(
        size_at(cells, sheet.root) == Some(sheet.len()),
        Fault::Differs,
    )?;
    whole_agrees(cells, recogniser, sheet)?;
    let part = Part::draw(dice, sheet.len());
    range_agrees(cells, recogniser, sheet, part)
}
