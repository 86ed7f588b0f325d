use crate::fault::Fault;
use book::book::Book;
use book::token::{PauseToken, Paused};
use calls::outcome::Outcome;
use cells::cell::Cell;
use checks::verdict::ask;
use dice::dice::Dice;
use monoid::recogniser::Recogniser;
use std::alloc::AllocFailed;

// Cells and recogniser are the caller's and lent for a call, so they stand apart.

// Pauses a sheet, and keeps its token where one is handed out.
pub fn pause<R: Recogniser>(
    book: &mut Book,
    cells: &mut [Cell<R::Element>],
    recogniser: &mut R,
    tokens: &mut Vec<PauseToken>,
    tag: u32,
) -> Result<Outcome, Fault> {
    let Paused { outcome, token } = book.pause(cells, recogniser, tag);
    match token {
        None => {
            ask(outcome.refusal.is_some(), Fault::Token)?;
            Ok(outcome)
        }
        Some(token) => {
            let right = token.tag() == tag && outcome.refusal.is_none();
            if let Err(AllocFailed { value }) = tokens.push(token) {
                book.recalculate(cells, recogniser, value);
                return Err(Fault::NoMemory);
            }
            ask(right, Fault::Token)?;
            Ok(outcome)
        }
    }
}

// Takes out a token of a tag, if there is one.
fn take(tokens: &mut Vec<PauseToken>, tag: u32) -> Option<PauseToken> {
    let at = tokens.iter().position(|token| token.tag() == tag)?;
    Some(tokens.swap_remove(at))
}

// A token of a tag from another book, which has no cells.
fn stray<R: Recogniser>(
    cells: &mut [Cell<R::Element>],
    recogniser: &mut R,
    tag: u32,
) -> Option<PauseToken> {
    let none = &mut cells[0..0];
    let mut other = Book::create(none);
    other.open(none, recogniser, tag);
    let Paused { outcome: _, token } = other.pause(none, recogniser, tag);
    token
}

// A token of a tag: mostly one that is kept, if there is one, and else another book's.
fn some_token<R: Recogniser>(
    cells: &mut [Cell<R::Element>],
    recogniser: &mut R,
    tokens: &mut Vec<PauseToken>,
    dice: &mut Dice,
    tag: u32,
) -> Option<PauseToken> {
    if dice.below(4) == 0 {
        return stray(cells, recogniser, tag);
    }
    match take(tokens, tag) {
        Some(token) => Some(token),
        None => stray(cells, recogniser, tag),
    }
}

// Recalculates the sheet of a tag, and spends a token of that tag.
pub fn recalculate<R: Recogniser>(
    book: &mut Book,
    cells: &mut [Cell<R::Element>],
    recogniser: &mut R,
    tokens: &mut Vec<PauseToken>,
    dice: &mut Dice,
    tag: u32,
) -> Result<Outcome, Fault> {
    let token = some_token(cells, recogniser, tokens, dice, tag).ok_or(Fault::Token)?;
    Ok(book.recalculate(cells, recogniser, token))
}

// Spends all tokens that are left.
pub fn spend_all<R: Recogniser>(
    book: &mut Book,
    cells: &mut [Cell<R::Element>],
    recogniser: &mut R,
    tokens: Vec<PauseToken>,
) {
    let mut rest = tokens;
    while let Some(token) = rest.pop() {
        book.recalculate(cells, recogniser, token);
    }
    rest.destroy_empty();
}
