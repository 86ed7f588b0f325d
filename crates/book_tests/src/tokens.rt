// What tokens a pause hands out, and what a book says to the token of another.
#[cfg(test)]
mod tests {
    use crate::answers::{declined, done};
    use crate::desk::{settle, write};
    use book::book::Book;
    use book::token::Paused;
    use cells::cell::Cell;
    use monoid::recogniser::Recogniser;
    use panels::lamps::page;
    use rows::kind::Kind;

    #[test]
    fn a_pause_that_is_declined_hands_out_none(rt: HostRuntime) {
        let mut pages = page();
        let mut cells = [Cell::blank(pages.unit()); 4];
        let mut book = Book::create(&mut cells);
        let Paused {
            outcome: missing,
            token: missing_token,
        } = book.pause(&mut cells, &mut pages, 1);
        assert!(rt; declined(missing, 2));
        assert!(rt; settle(&mut book, &mut cells, &mut pages, missing_token).is_none());
        assert!(rt; write(&mut book, &mut cells, &mut pages, 1, &[Kind::Item]));
        let Paused {
            outcome: first,
            token: first_token,
        } = book.pause(&mut cells, &mut pages, 1);
        assert!(rt; done(first, 0));
        let Paused {
            outcome: second,
            token: second_token,
        } = book.pause(&mut cells, &mut pages, 1);
        assert!(rt; declined(second, 5));
        assert!(rt; settle(&mut book, &mut cells, &mut pages, second_token).is_none());
        let Some(token) = first_token else {
            panic!(rt; "the pause was accepted, and handed out no token");
        };
        assert_eq!(rt; token.tag(), 1);
        assert!(rt; done(book.recalculate(&mut cells, &mut pages, token), 2));
    }

    // Two tokens at a time, each for its own sheet.
    #[test]
    fn two_sheets_are_paused(rt: HostRuntime) {
        let mut pages = page();
        let mut cells = [Cell::blank(pages.unit()); 8];
        let mut book = Book::create(&mut cells);
        assert!(rt; write(&mut book, &mut cells, &mut pages, 1, &[Kind::Item; 3]));
        assert!(rt; write(&mut book, &mut cells, &mut pages, 2, &[Kind::Item; 4]));
        let Paused {
            outcome: first,
            token: first_token,
        } = book.pause(&mut cells, &mut pages, 1);
        let Paused {
            outcome: second,
            token: second_token,
        } = book.pause(&mut cells, &mut pages, 2);
        assert!(rt;
            settle(&mut book, &mut cells, &mut pages, second_token).is_some_and(|outcome| done(
                outcome, 8
            ))
        );
        assert_eq!(rt; book.whole(&mut cells, &mut pages, 2).number(), 0);
        assert!(rt; declined(book.whole(&mut cells, &mut pages, 1), 5));
        assert!(rt;
            settle(&mut book, &mut cells, &mut pages, first_token).is_some_and(|outcome| done(
                outcome, 6
            ))
        );
        assert_eq!(rt; book.whole(&mut cells, &mut pages, 1).number(), 0);
    }

    // Another book knows the tag as that of a settled sheet, or of none.
    #[test]
    fn another_book_declines_a_token(rt: HostRuntime) {
        let mut pages = page();
        let mut cells = [Cell::blank(pages.unit()); 4];
        let mut others = [Cell::blank(pages.unit()); 4];
        let mut book = Book::create(&mut cells);
        let mut other = Book::create(&mut others);
        assert!(rt; write(&mut book, &mut cells, &mut pages, 1, &[Kind::Item]));
        assert!(rt; write(&mut book, &mut cells, &mut pages, 2, &[Kind::Item]));
        assert!(rt; write(&mut other, &mut others, &mut pages, 1, &[Kind::Item]));
        let Paused {
            outcome: first,
            token: first_token,
        } = book.pause(&mut cells, &mut pages, 1);
        let Paused {
            outcome: second,
            token: second_token,
        } = book.pause(&mut cells, &mut pages, 2);
        assert!(rt;
            settle(&mut other, &mut others, &mut pages, first_token).is_some_and(|outcome| declined(
                outcome, 6
            ))
        );
        assert!(rt;
            settle(&mut other, &mut others, &mut pages, second_token).is_some_and(
                |outcome| declined(outcome, 2)
            )
        );
    }
}
