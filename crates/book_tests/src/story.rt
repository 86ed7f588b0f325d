// Two sheets with lives of their own: a copy is renamed, edited, paused and recalculated, and its source is edited
// between. Each shows its own lamps throughout.
#[cfg(test)]
mod tests {
    use crate::answers::{declined, done, shows};
    use crate::desk::{settle, write};
    use book::book::Book;
    use book::token::Paused;
    use cells::cell::Cell;
    use monoid::recogniser::Recogniser;
    use panels::panels::panel_one;
    use rows::kind::Kind;
    use std::process::Abort;

    const PARENT: u32 = 11;

    const COPY: u32 = 12;

    const CHILD: u32 = 7;

    // The lamps of panel one: closed, page, summary and notes.
    const ALL_IN_ORDER: [bool; 4] = [true, false, true, true];

    // The parent has the rows H, I, C, S, and its copy is renamed.
    fn begin<R: Recogniser>(
        rt: &impl Abort,
        book: &mut Book,
        cells: &mut [Cell<R::Element>],
        panel: &mut R,
    ) {
        let kinds = [Kind::Heading, Kind::Item, Kind::Collection, Kind::Summary];
        assert!(rt; write(book, cells, panel, PARENT, &kinds));
        assert!(rt; shows(book.whole(cells, panel, PARENT), ALL_IN_ORDER));
        assert!(rt; done(book.copy(cells, panel, PARENT, COPY), 0));
        assert!(rt; done(book.rename(cells, panel, COPY, CHILD), 0));
        assert!(rt; shows(book.whole(cells, panel, CHILD), ALL_IN_ORDER));
        assert!(rt; declined(book.whole(cells, panel, COPY), 2));
    }

    // The parent loses its collection: H, I, S. The child begins with two notes: N, N, H, I, C, S.
    fn part<R: Recogniser>(
        rt: &impl Abort,
        book: &mut Book,
        cells: &mut [Cell<R::Element>],
        panel: &mut R,
    ) {
        assert_eq!(rt; book.strike(cells, panel, PARENT, 3).number(), 0);
        assert!(rt;
            shows(
                book.whole(cells, panel, PARENT),
                [false, false, false, true]
            )
        );
        assert!(rt; shows(book.whole(cells, panel, CHILD), ALL_IN_ORDER));
        assert_eq!(rt; book.insert(cells, panel, CHILD, 1, Kind::Note).number(), 0);
        assert_eq!(rt; book.insert(cells, panel, CHILD, 1, Kind::Note).number(), 0);
        assert!(rt; shows(book.whole(cells, panel, CHILD), [true, false, true, false]));
        assert!(rt;
            shows(
                book.whole(cells, panel, PARENT),
                [false, false, false, true]
            )
        );
    }

    // The child is paused, and becomes N, H, I, C, S, C; the parent is H, I, C, S again meanwhile.
    fn pause<R: Recogniser>(
        rt: &impl Abort,
        book: &mut Book,
        cells: &mut [Cell<R::Element>],
        panel: &mut R,
    ) {
        let Paused { outcome, token } = book.pause(cells, panel, CHILD);
        assert!(rt; done(outcome, 0));
        assert!(rt; done(book.strike(cells, panel, CHILD, 1), 0));
        assert!(rt; done(book.insert(cells, panel, CHILD, 6, Kind::Note), 0));
        assert!(rt; done(book.replace(cells, panel, CHILD, 6, Kind::Collection), 0));
        assert_eq!(rt;
            book.insert(cells, panel, PARENT, 3, Kind::Collection)
                .number(),
            0
        );
        assert!(rt; shows(book.whole(cells, panel, PARENT), ALL_IN_ORDER));
        assert!(rt; declined(book.whole(cells, panel, CHILD), 5));
        assert!(rt; settle(book, cells, panel, token).is_some_and(|outcome| done(outcome, 12)));
    }

    // Back to the one, and to the other.
    fn go_back<R: Recogniser>(
        rt: &impl Abort,
        book: &mut Book,
        cells: &mut [Cell<R::Element>],
        panel: &mut R,
    ) {
        assert!(rt; shows(book.whole(cells, panel, CHILD), [false, false, false, true]));
        assert!(rt; shows(book.whole(cells, panel, PARENT), ALL_IN_ORDER));
        assert!(rt;
            shows(
                book.range(cells, panel, CHILD, 2, 4),
                [true, false, false, true]
            )
        );
        assert!(rt;
            shows(
                book.range(cells, panel, PARENT, 2, 4),
                [false, false, true, true]
            )
        );
        assert_eq!(rt; book.strike(cells, panel, CHILD, 6).number(), 0);
        assert!(rt; shows(book.whole(cells, panel, CHILD), ALL_IN_ORDER));
        assert!(rt; done(book.close(cells, panel, PARENT), 0));
        assert!(rt; shows(book.whole(cells, panel, CHILD), ALL_IN_ORDER));
        assert!(rt; shows(book.range(cells, panel, CHILD, 1, 5), ALL_IN_ORDER));
    }

    #[test]
    fn each_sheet_has_its_own_lamps(rt: HostRuntime) {
        let mut panel = panel_one();
        let mut cells = [Cell::blank(panel.unit()); 16];
        let mut book = Book::create(&mut cells);
        begin(&rt, &mut book, &mut cells, &mut panel);
        part(&rt, &mut book, &mut cells, &mut panel);
        pause(&rt, &mut book, &mut cells, &mut panel);
        go_back(&rt, &mut book, &mut cells, &mut panel);
    }

    // The empty word: closed, a multiple of ten, no summary, and no notes.
    #[test]
    fn a_range_of_no_row(rt: HostRuntime) {
        let mut panel = panel_one();
        let mut cells = [Cell::blank(panel.unit()); 4];
        let mut book = Book::create(&mut cells);
        let none = [true, true, false, true];
        assert!(rt; write(&mut book, &mut cells, &mut panel, 5, &[]));
        assert!(rt; shows(book.whole(&mut cells, &mut panel, 5), none));
        assert!(rt; shows(book.range(&mut cells, &mut panel, 5, 1, 0), none));
        assert!(rt;
            write(
                &mut book,
                &mut cells,
                &mut panel,
                6,
                &[Kind::Note, Kind::Note]
            )
        );
        assert!(rt; shows(book.range(&mut cells, &mut panel, 6, 1, 0), none));
        assert!(rt; shows(book.range(&mut cells, &mut panel, 6, 2, 1), none));
        assert!(rt; shows(book.range(&mut cells, &mut panel, 6, 3, 2), none));
        assert!(rt;
            shows(
                book.range(&mut cells, &mut panel, 6, 2, 2),
                [true, false, false, true]
            )
        );
        assert!(rt;
            shows(
                book.range(&mut cells, &mut panel, 6, 1, 2),
                [true, false, false, false]
            )
        );
    }
}
