use book::book::Book;
use book::token::PauseToken;
use calls::outcome::Outcome;
use cells::cell::Cell;
use monoid::recogniser::Recogniser;
use rows::kind::Kind;

// Book, cells and recogniser are lent to each helper apart: a test works a book over cells that it has changed.

// Opens a sheet and puts rows of these kinds into it, in order; tells whether each call was accepted.
pub fn write<R: Recogniser>(
    book: &mut Book,
    cells: &mut [Cell<R::Element>],
    recogniser: &mut R,
    tag: u32,
    kinds: &[Kind],
) -> bool {
    if book.open(cells, recogniser, tag).number() != 0 {
        return false;
    }
    (1..=u32::MAX).zip(kinds).all(|(row, kind)| book
        .insert(cells, recogniser, tag, row, *kind)
        .number()
        == 0)
}

// Recalculates the sheet of a token, where there is one.
pub fn settle<R: Recogniser>(
    book: &mut Book,
    cells: &mut [Cell<R::Element>],
    recogniser: &mut R,
    token: Option<PauseToken>,
) -> Option<Outcome> {
    token.map(|token| book.recalculate(cells, recogniser, token))
}

// Whether a sheet has so many rows: the empty range behind them is in order, and the one after it is not.
pub fn has_rows<R: Recogniser>(
    book: &mut Book,
    cells: &mut [Cell<R::Element>],
    recogniser: &mut R,
    tag: u32,
    rows: u32,
) -> bool {
    let next = rows.saturating_add(1);
    let last = book.range(cells, recogniser, tag, next, rows);
    let past = book.range(cells, recogniser, tag, next.saturating_add(1), next);
    last.number() == 0 && past.number() == 7
}
