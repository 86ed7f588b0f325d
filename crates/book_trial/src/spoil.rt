use cells::cell::Cell;
use dice::dice::Dice;

// Links and sizes are drawn below this: a little more than there are cells.
const LINKS: u16 = 20;

// Writes a link or a size into a cell that is wrong.
fn damage<E: Copy>(dice: &mut Dice, cell: &mut Cell<E>) {
    match dice.below(4) {
        0 => cell.left = Some(dice.below(LINKS)),
        1 => cell.right = Some(dice.below(LINKS)),
        2 => cell.size = dice.below(LINKS),
        _ => cell.height = 200,
    }
}

// Writes to a cell, or swaps two, as no book does.
pub fn spoil<E: Copy>(cells: &mut [Cell<E>], dice: &mut Dice) {
    let one = usize::from(dice.below(LINKS));
    let other = usize::from(dice.below(LINKS));
    if one >= cells.len() || other >= cells.len() {
        return;
    }
    if dice.below(2) == 0 {
        cells.swap(one, other);
    } else {
        damage(dice, &mut cells[one]);
    }
}
