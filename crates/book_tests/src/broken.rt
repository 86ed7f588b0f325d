// Cells that were changed between calls, or not all handed over: every call still answers, and what the records alone
// decide is answered as ever.
#[cfg(test)]
mod tests {
    use crate::answers::{declined, done, tried};
    use crate::desk::{has_rows, settle, write};
    use book::book::Book;
    use book::token::Paused;
    use cells::cell::Cell;
    use counter::counter::Counter;
    use monoid::recogniser::Recogniser;
    use panels::lamps::page;
    use rows::kind::Kind;
    use std::process::Abort;

    // Book, cells and recogniser are lent to each helper apart.

    // Sheet 1 has five rows in the cells 15 to 11, and the cell 14 is its root; sheet 2 has three rows in the cells 10
    // to 8, and the cell 9 is its root; the cells 7 to 0 are unused, and the cell 7 is their first.
    fn begin<R: Recogniser>(
        rt: &impl Abort,
        book: &mut Book,
        cells: &mut [Cell<R::Element>],
        recogniser: &mut R,
    ) {
        assert!(rt; write(book, cells, recogniser, 1, &[Kind::Item; 5]));
        assert!(rt; write(book, cells, recogniser, 2, &[Kind::Note; 3]));
    }

    // What the records alone decide of two sheets with five rows and three.
    fn refuses<R: Recogniser>(
        rt: &impl Abort,
        book: &mut Book,
        cells: &mut [Cell<R::Element>],
        recogniser: &mut R,
    ) {
        assert!(rt; declined(book.open(cells, recogniser, 0), 1));
        assert!(rt; declined(book.whole(cells, recogniser, 3), 2));
        assert!(rt; declined(book.rename(cells, recogniser, 1, 2), 3));
        assert!(rt; declined(book.insert(cells, recogniser, 1, 7, Kind::Item), 7));
        assert!(rt; declined(book.strike(cells, recogniser, 2, 4), 7));
        assert!(rt; declined(book.replace(cells, recogniser, 2, 0, Kind::Item), 7));
        assert!(rt; declined(book.range(cells, recogniser, 1, 3, 6), 7));
        assert!(rt; has_rows(book, cells, recogniser, 1, 5));
        assert!(rt; has_rows(book, cells, recogniser, 2, 3));
    }

    // Questions, and a sheet paused and recalculated: broken cells are all that may be in the way.
    fn answers<R: Recogniser>(
        rt: &impl Abort,
        book: &mut Book,
        cells: &mut [Cell<R::Element>],
        recogniser: &mut R,
    ) {
        assert!(rt; tried(book.whole(cells, recogniser, 1)));
        assert!(rt; tried(book.range(cells, recogniser, 1, 1, 4)));
        assert!(rt; tried(book.range(cells, recogniser, 2, 2, 3)));
        assert!(rt; tried(book.replace(cells, recogniser, 1, 1, Kind::Blank)));
        refuses(rt, book, cells, recogniser);
        let Paused { outcome, token } = book.pause(cells, recogniser, 2);
        assert!(rt; done(outcome, 0));
        assert!(rt; tried(book.replace(cells, recogniser, 2, 3, Kind::Blank)));
        assert!(rt; declined(book.whole(cells, recogniser, 2), 5));
        assert!(rt; settle(book, cells, recogniser, token).is_some_and(tried));
    }

    // Calls that make or free cells: where one meets broken cells, the sheets keep the rows that they had.
    fn moves<R: Recogniser>(
        rt: &impl Abort,
        book: &mut Book,
        cells: &mut [Cell<R::Element>],
        recogniser: &mut R,
    ) {
        let inserted = book.insert(cells, recogniser, 1, 3, Kind::Note);
        assert!(rt; tried(inserted));
        let rows = if inserted.number() == 0 { 6 } else { 5 };
        assert!(rt; has_rows(book, cells, recogniser, 1, rows));
        let struck = book.strike(cells, recogniser, 2, 1);
        assert!(rt; tried(struck));
        let others = if struck.number() == 0 { 2 } else { 3 };
        assert!(rt; has_rows(book, cells, recogniser, 2, others));
        let copied = book.copy(cells, recogniser, 1, 3);
        assert!(rt; tried(copied));
        let third = if copied.number() == 0 { 0 } else { 2 };
        assert_eq!(rt; book.range(cells, recogniser, 3, 1, 0).number(), third);
        let closed = book.close(cells, recogniser, 1);
        assert!(rt; tried(closed));
        let first = if closed.number() == 0 { 2 } else { 0 };
        assert_eq!(rt; book.range(cells, recogniser, 1, 1, 0).number(), first);
        assert!(rt; has_rows(book, cells, recogniser, 2, others));
        assert!(rt; done(book.open(cells, recogniser, 9), 0));
    }

    // The book after `begin`, over cells that are let go: nothing copies a book, so each use has one of its own.
    fn anew(rt: &impl Abort, pages: &mut Counter) -> Book {
        let mut cells = [Cell::blank(pages.unit()); 16];
        let mut book = Book::create(&mut cells);
        begin(rt, &mut book, &mut cells, pages);
        book
    }

    // All of these, each on a book of its own.
    fn goes_on(rt: &impl Abort, cells: &mut [Cell<u32>], pages: &mut Counter) {
        let mut same = anew(rt, pages);
        refuses(rt, &mut same, cells, pages);
        let mut other = anew(rt, pages);
        answers(rt, &mut other, cells, pages);
        let mut third = anew(rt, pages);
        moves(rt, &mut third, cells, pages);
    }

    #[test]
    fn two_cells_are_swapped(rt: HostRuntime) {
        let mut pages = page();
        let mut cells = [Cell::blank(pages.unit()); 16];
        let mut book = Book::create(&mut cells);
        begin(&rt, &mut book, &mut cells, &mut pages);
        let mut roots = cells;
        roots[14] = cells[9];
        roots[9] = cells[14];
        goes_on(&rt, &mut roots, &mut pages);
        let mut unused = cells;
        unused[7] = cells[15];
        unused[15] = cells[7];
        goes_on(&rt, &mut unused, &mut pages);
        goes_on(&rt, &mut cells, &mut pages);
    }

    #[test]
    fn a_link_leads_nowhere(rt: HostRuntime) {
        let mut pages = page();
        let mut cells = [Cell::blank(pages.unit()); 16];
        let mut book = Book::create(&mut cells);
        begin(&rt, &mut book, &mut cells, &mut pages);
        let mut rows = cells;
        rows[14].left = Some(16);
        assert_eq!(rt; book.range(&mut rows, &mut pages, 1, 1, 2).number(), 9);
        assert_eq!(rt;
            book.replace(&mut rows, &mut pages, 1, 1, Kind::Note)
                .number(),
            9
        );
        goes_on(&rt, &mut rows, &mut pages);
        let mut unused = cells;
        unused[7].left = Some(65_535);
        goes_on(&rt, &mut unused, &mut pages);
    }

    #[test]
    fn links_lead_in_a_circle(rt: HostRuntime) {
        let mut pages = page();
        let mut cells = [Cell::blank(pages.unit()); 16];
        let mut book = Book::create(&mut cells);
        begin(&rt, &mut book, &mut cells, &mut pages);
        let mut rows = cells;
        rows[14].left = Some(14);
        rows[14].right = Some(14);
        goes_on(&rt, &mut rows, &mut pages);
        let mut unused = cells;
        unused[7].left = Some(7);
        goes_on(&rt, &mut unused, &mut pages);
        let mut crossed = cells;
        crossed[15].left = Some(9);
        crossed[9].left = Some(15);
        goes_on(&rt, &mut crossed, &mut pages);
    }

    // What is asked of cells that were not handed over.
    fn meets_nothing<R: Recogniser>(
        rt: &impl Abort,
        book: &mut Book,
        cells: &mut [Cell<R::Element>],
        recogniser: &mut R,
    ) {
        refuses(rt, book, cells, recogniser);
        assert_eq!(rt; book.whole(cells, recogniser, 1).number(), 9);
        assert_eq!(rt; book.range(cells, recogniser, 1, 1, 1).number(), 9);
        assert_eq!(rt; book.copy(cells, recogniser, 2, 3).number(), 9);
        assert_eq!(rt;
            book.insert(cells, recogniser, 1, 6, Kind::Item).number(),
            9
        );
        assert_eq!(rt; book.strike(cells, recogniser, 1, 5).number(), 9);
        assert_eq!(rt;
            book.replace(cells, recogniser, 2, 2, Kind::Item).number(),
            9
        );
        assert_eq!(rt; book.close(cells, recogniser, 2).number(), 9);
        refuses(rt, book, cells, recogniser);
        assert!(rt; done(book.rename(cells, recogniser, 2, 4), 0));
        assert!(rt; done(book.open(cells, recogniser, 2), 0));
        let Paused { outcome, token } = book.pause(cells, recogniser, 4);
        assert!(rt; done(outcome, 0));
        assert!(rt;
            settle(book, cells, recogniser, token).is_some_and(|outcome| outcome.number() == 9)
        );
        assert!(rt; declined(book.whole(cells, recogniser, 4), 5));
    }

    #[test]
    fn fewer_cells_than_before(rt: HostRuntime) {
        let mut pages = page();
        let mut cells = [Cell::blank(pages.unit()); 16];
        let mut book = Book::create(&mut cells);
        begin(&rt, &mut book, &mut cells, &mut pages);
        goes_on(&rt, &mut cells[0..12], &mut pages);
        let mut seven = anew(&rt, &mut pages);
        meets_nothing(&rt, &mut seven, &mut cells[0..7], &mut pages);
        let mut none = anew(&rt, &mut pages);
        meets_nothing(&rt, &mut none, &mut cells[0..0], &mut pages);
    }

    // The book's sixteen cells, and two more: the last is the row of the cell 15 once more, and the root of sheet 1 leads
    // to it.
    fn extended(cells: &[Cell<u32>; 16]) -> [Cell<u32>; 18] {
        let mut more = [cells[15]; 18];
        more[..16].copy_from_slice(cells);
        more[14].left = Some(17);
        more
    }

    #[test]
    fn more_cells_than_before(rt: HostRuntime) {
        let mut pages = page();
        let mut cells = [Cell::blank(pages.unit()); 16];
        let mut book = Book::create(&mut cells);
        begin(&rt, &mut book, &mut cells, &mut pages);
        let mut more = extended(&cells);
        assert_eq!(rt; book.range(&mut more, &mut pages, 1, 1, 2).number(), 9);
        assert_eq!(rt;
            book.replace(&mut more, &mut pages, 1, 1, Kind::Note)
                .number(),
            9
        );
        goes_on(&rt, &mut more, &mut pages);
        assert!(rt; more[16].kind == Kind::Item && more[16].size == 1);
        assert!(rt; more[17].kind == Kind::Item && more[17].size == 1);
        assert!(rt; more[17].left.is_none() && more[17].right.is_none());
    }
}
