// Tests of trees in cells.
#[cfg(test)]
mod tests {
    use crate::first::First;
    use cells::cell::Cell;
    use heights::height::{height_bound, most_height};
    use monoid::recogniser::Recogniser;
    use monoid::tally::Tally;
    use ranges::range::{range, whole};
    use rows::kind::Kind;
    use unused::freeing::free_tree;
    use unused::list::{Unused, enough_unused, make_unused, take_cell};
    use whole::copying::copy;
    use whole::renewing::recompute;

    fn row(kind: Kind, product: u8) -> Cell<u8> {
        Cell {
            kind,
            height: 1,
            size: 1,
            ..Cell::blank(product)
        }
    }

    fn unused(next: Option<u16>) -> Cell<u8> {
        Cell {
            left: next,
            ..Cell::blank(0)
        }
    }

    // The rows H, I, N under the place 1, with the places 5, 4 and 3 unused.
    fn three(first: u8, middle: u8, last: u8) -> [Cell<u8>; 6] {
        let top = Cell {
            left: Some(0),
            right: Some(2),
            height: 2,
            size: 3,
            ..row(Kind::Item, middle)
        };
        [
            row(Kind::Heading, first),
            top,
            row(Kind::Note, last),
            unused(None),
            unused(Some(3)),
            unused(Some(4)),
        ]
    }

    #[test]
    fn ranges_begin_with_their_first_row(rt: HostRuntime) {
        let cells = three(1, 1, 5);
        let mut first = First {
            tally: Tally::new(),
        };
        assert!(rt; range(&cells, &mut first, Some(1), 0, 3) == Some(1));
        assert!(rt; range(&cells, &mut first, Some(1), 1, 3) == Some(2));
        assert!(rt; range(&cells, &mut first, Some(1), 2, 3) == Some(5));
        assert!(rt; range(&cells, &mut first, Some(1), 2, 2) == Some(0));
        assert!(rt; whole(&cells, &first, Some(1)) == Some(1));
    }

    #[test]
    fn products_are_anew(rt: HostRuntime) {
        let mut cells = three(9, 9, 9);
        let mut first = First {
            tally: Tally::new(),
        };
        assert!(rt; recompute(&mut cells, &mut first, Some(1)) == Some(3));
        assert_eq!(rt; first.asked(), 6);
        assert_eq!(rt; cells[0].product, 1);
        assert_eq!(rt; cells[1].product, 1);
        assert_eq!(rt; cells[2].product, 5);
    }

    #[test]
    fn a_copy_stands_in_unused_cells(rt: HostRuntime) {
        let mut cells = three(1, 1, 5);
        let Some(copied) = copy(&mut cells, Unused { first: Some(5) }, Some(1)) else {
            assert!(rt; false);
            return;
        };
        assert!(rt; copied.root == Some(3));
        assert!(rt; copied.unused.first.is_none());
        assert!(rt; cells[3].left == Some(5));
        assert!(rt; cells[3].right == Some(4));
        assert_eq!(rt; cells[4].product, 5);
        assert!(rt; copy(&mut cells, Unused { first: None }, Some(1)).is_none());
    }

    #[test]
    fn freed_cells_are_unused_again(rt: HostRuntime) {
        let mut cells = three(1, 1, 5);
        let Some(all) = free_tree(&mut cells, Unused { first: Some(5) }, Some(1)) else {
            assert!(rt; false);
            return;
        };
        assert!(rt; all.first == Some(2));
        assert!(rt; enough_unused(&cells, all, 6));
        assert!(rt; !enough_unused(&cells, all, 7));
    }

    #[test]
    fn all_cells_are_made_unused(rt: HostRuntime) {
        let mut cells = three(1, 1, 5);
        let all = make_unused(&mut cells);
        assert!(rt; all.first == Some(5));
        let Some(taken) = take_cell(&cells, all) else {
            assert!(rt; false);
            return;
        };
        assert!(rt; taken.rest.first == Some(4));
    }

    #[test]
    fn broken_cells_are_refused(rt: HostRuntime) {
        let back = Cell {
            left: Some(0),
            right: Some(0),
            size: 7,
            ..row(Kind::Blank, 0)
        };
        let mut cells = [back; 6];
        let mut first = First {
            tally: Tally::new(),
        };
        assert!(rt; range(&cells, &mut first, Some(0), 0, 5).is_none());
        assert!(rt; recompute(&mut cells, &mut first, Some(0)).is_none());
        assert!(rt; copy(&mut cells, Unused { first: Some(0) }, Some(9)).is_none());
        assert!(rt; free_tree(&mut cells, Unused { first: None }, Some(0)).is_none());
    }

    #[test]
    fn heights_are_bounded(rt: HostRuntime) {
        assert_eq!(rt; most_height(4096), 16);
        assert!(rt; height_bound(&three(1, 1, 5), Some(1)) == Some(2));
    }
}
