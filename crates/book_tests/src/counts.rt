// How many products the calls ask for.
#[cfg(test)]
mod tests {
    use crate::answers::{done, shows};
    use crate::desk::{settle, write};
    use book::book::Book;
    use book::token::Paused;
    use calls::outcome::Outcome;
    use cells::cell::Cell;
    use monoid::recogniser::Recogniser;
    use panels::lamps::page;
    use rows::kind::Kind;

    // Whether a call was accepted for some products, so many at the most.
    fn asks(outcome: Outcome, most: u64) -> bool {
        outcome.number() == 0 && outcome.count > 0 && outcome.count <= most
    }

    // Five rows stand at most three high, and seven at most four.
    #[test]
    fn settled_edits_ask_for_few_products(rt: HostRuntime) {
        let mut pages = page();
        let mut cells = [Cell::blank(pages.unit()); 16];
        let mut book = Book::create(&mut cells);
        assert!(rt; write(&mut book, &mut cells, &mut pages, 1, &[Kind::Item; 5]));
        assert!(rt; asks(book.insert(&mut cells, &mut pages, 1, 3, Kind::Note), 32));
        assert!(rt; asks(book.replace(&mut cells, &mut pages, 1, 6, Kind::Note), 32));
        assert!(rt; asks(book.strike(&mut cells, &mut pages, 1, 1), 32));
        assert!(rt; asks(book.range(&mut cells, &mut pages, 1, 2, 4), 16));
        let empty = book.range(&mut cells, &mut pages, 1, 3, 2);
        assert!(rt; shows(empty, [true]) && empty.count == 0);
        let whole = book.whole(&mut cells, &mut pages, 1);
        assert!(rt; shows(whole, [false]) && whole.count == 0);
        assert!(rt; done(book.copy(&mut cells, &mut pages, 1, 2), 0));
        assert!(rt; done(book.rename(&mut cells, &mut pages, 1, 3), 0));
        assert!(rt; done(book.close(&mut cells, &mut pages, 3), 0));
    }

    #[test]
    fn paused_edits_ask_for_none(rt: HostRuntime) {
        let mut pages = page();
        let mut cells = [Cell::blank(pages.unit()); 16];
        let mut book = Book::create(&mut cells);
        assert!(rt; write(&mut book, &mut cells, &mut pages, 1, &[Kind::Item; 9]));
        let Paused { outcome, token } = book.pause(&mut cells, &mut pages, 1);
        let before = pages.asked();
        assert!(rt; done(outcome, 0));
        assert!(rt; done(book.insert(&mut cells, &mut pages, 1, 1, Kind::Note), 0));
        assert!(rt; done(book.insert(&mut cells, &mut pages, 1, 11, Kind::Note), 0));
        assert!(rt; done(book.replace(&mut cells, &mut pages, 1, 6, Kind::Note), 0));
        assert!(rt; done(book.strike(&mut cells, &mut pages, 1, 11), 0));
        assert_eq!(rt; pages.asked(), before);
        assert!(rt;
            settle(&mut book, &mut cells, &mut pages, token).is_some_and(|outcome| done(
                outcome, 20
            ))
        );
        assert_eq!(rt; pages.asked(), before.wrapping_add(20));
        assert!(rt; shows(book.whole(&mut cells, &mut pages, 1), [true]));
    }

    #[test]
    fn no_row_is_recalculated_for_nothing(rt: HostRuntime) {
        let mut pages = page();
        let mut cells = [Cell::blank(pages.unit()); 0];
        let mut book = Book::create(&mut cells);
        assert!(rt; write(&mut book, &mut cells, &mut pages, 1, &[]));
        let Paused { outcome, token } = book.pause(&mut cells, &mut pages, 1);
        assert!(rt;
            settle(&mut book, &mut cells, &mut pages, token).is_some_and(|outcome| done(outcome, 0))
        );
        assert!(rt; done(book.copy(&mut cells, &mut pages, 1, 2), 0));
        assert_eq!(rt;
            book.insert(&mut cells, &mut pages, 1, 1, Kind::Item)
                .number(),
            8
        );
    }
}
