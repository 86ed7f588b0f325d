use crate::scatter::scattered_kind;
use monoid::fold::word_image;
use monoid::recogniser::Recogniser;
use rows::kind::Kind;

// A kind for each row.
pub(crate) fn scatter_rows(rows: &mut [Kind]) {
    for (turn, row) in rows.iter_mut().enumerate() {
        *row = scattered_kind(turn as u64);
    }
}

// Folds some rows anew in each turn, and counts the folds that light lamp 0.
pub(crate) fn fold_turns<R: Recogniser>(recogniser: &mut R, rows: &[Kind], turns: u64) -> u64 {
    let mut lit: u64 = 0;
    for _ in 0..turns {
        let product = word_image(recogniser, rows);
        lit = lit.saturating_add(u64::from(recogniser.lit(product, 0)));
    }
    lit
}
