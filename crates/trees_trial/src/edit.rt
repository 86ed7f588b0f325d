use dice::dice::Dice;
use rows::kind::Kind;

// How many rows a tree has at the most.
const MOST_ROWS: u16 = 200;

// An edit of a list of rows.
#[derive(Clone, Copy)]
pub enum Edit {
    Insert { index: u16, kind: Kind },
    Strike { index: u16 },
    Replace { index: u16, kind: Kind },
}

// An edit of so many rows. Insertions come a little more often than removals, so that the rows grow slowly to the most.
pub fn draw(dice: &mut Dice, rows: u16) -> Edit {
    let kind = dice.kind();
    let sort = dice.below(10);
    if rows == 0 || (sort < 4 && rows < MOST_ROWS) {
        let index = dice.below(rows.saturating_add(1));
        return Edit::Insert { index, kind };
    }
    let index = dice.below(rows);
    if sort < 7 {
        Edit::Strike { index }
    } else {
        Edit::Replace { index, kind }
    }
}
