// Eight sheets in few cells, and one sheet in all that a book takes.
#[cfg(test)]
mod tests {
    use crate::answers::{declined, done, shows};
    use crate::desk::{has_rows, write};
    use book::book::Book;
    use cells::cell::Cell;
    use monoid::recogniser::Recogniser;
    use panels::lamps::page;
    use rows::kind::Kind;
    use std::process::Abort;
    use std::test::Fail;

    // Book, cells and recogniser are lent to each helper apart.

    // Eight sheets of two rows, in sixteen cells.
    fn fill<R: Recogniser>(
        rt: &impl Abort,
        book: &mut Book,
        cells: &mut [Cell<R::Element>],
        recogniser: &mut R,
    ) {
        let kinds = [Kind::Item, Kind::Blank];
        for tag in 1..9 {
            assert!(rt;
                write(book, cells, recogniser, tag, &kinds),
                "at sheet {tag}"
            );
        }
    }

    #[test]
    fn a_ninth_sheet_and_a_seventeenth_row(rt: HostRuntime) {
        let mut pages = page();
        let mut cells = [Cell::blank(pages.unit()); 16];
        let mut book = Book::create(&mut cells);
        fill(&rt, &mut book, &mut cells, &mut pages);
        assert!(rt; declined(book.open(&mut cells, &mut pages, 9), 4));
        assert!(rt; declined(book.copy(&mut cells, &mut pages, 1, 9), 4));
        assert!(rt; declined(book.insert(&mut cells, &mut pages, 8, 3, Kind::Note), 8));
        assert!(rt; declined(book.insert(&mut cells, &mut pages, 8, 4, Kind::Note), 7));
        assert!(rt; has_rows(&mut book, &mut cells, &mut pages, 8, 2));
        assert!(rt; done(book.close(&mut cells, &mut pages, 4), 0));
        assert!(rt; done(book.open(&mut cells, &mut pages, 9), 0));
        assert!(rt; declined(book.copy(&mut cells, &mut pages, 9, 4), 4));
    }

    #[test]
    fn freed_rows_are_usable_again(rt: HostRuntime) {
        let mut pages = page();
        let mut cells = [Cell::blank(pages.unit()); 16];
        let mut book = Book::create(&mut cells);
        fill(&rt, &mut book, &mut cells, &mut pages);
        assert!(rt; done(book.close(&mut cells, &mut pages, 4), 0));
        assert!(rt; done(book.copy(&mut cells, &mut pages, 5, 4), 0));
        assert!(rt; declined(book.insert(&mut cells, &mut pages, 4, 1, Kind::Note), 8));
        assert!(rt; done(book.close(&mut cells, &mut pages, 1), 0));
        assert!(rt; declined(book.strike(&mut cells, &mut pages, 1, 1), 2));
        assert_eq!(rt; book.strike(&mut cells, &mut pages, 2, 1).number(), 0);
        for row in 3..6 {
            assert_eq!(rt;
                book.insert(&mut cells, &mut pages, 4, row, Kind::Note)
                    .number(),
                0
            );
        }
        assert!(rt; declined(book.insert(&mut cells, &mut pages, 4, 6, Kind::Note), 8));
        assert!(rt; has_rows(&mut book, &mut cells, &mut pages, 4, 5));
        assert!(rt; has_rows(&mut book, &mut cells, &mut pages, 2, 1));
    }

    // One sheet takes 4,096 rows and no more, whatever is handed over.
    fn fill_all<R: Recogniser>(
        rt: &impl Abort,
        book: &mut Book,
        cells: &mut [Cell<R::Element>],
        recogniser: &mut R,
    ) {
        assert!(rt; done(book.open(cells, recogniser, 1), 0));
        for _ in 0..4096 {
            assert_eq!(rt;
                book.insert(cells, recogniser, 1, 1, Kind::Item).number(),
                0
            );
        }
        assert!(rt; declined(book.insert(cells, recogniser, 1, 1, Kind::Item), 8));
        assert!(rt; has_rows(book, cells, recogniser, 1, 4096));
        assert!(rt; shows(book.whole(cells, recogniser, 1), [false]));
        assert!(rt; shows(book.range(cells, recogniser, 1, 7, 4096), [true]));
        assert!(rt; done(book.close(cells, recogniser, 1), 0));
        assert!(rt; write(book, cells, recogniser, 1, &[Kind::Item]));
    }

    #[test]
    fn a_book_takes_4096_cells_at_the_most(rt: HostRuntime) -> Result<(), Fail> {
        let mut pages = page();
        let mut cells = vec![in rt.alloc(); Cell::blank(pages.unit()); 4100]?;
        let mut book = Book::create(cells.as_mut_slice());
        fill_all(&rt, &mut book, cells.as_mut_slice(), &mut pages);
        Ok(())
    }
}
