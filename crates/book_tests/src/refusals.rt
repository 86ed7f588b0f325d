// What each call asks, in order, and the number of the first question that is answered no.
ghost use Rattle.std.specs.Prelude.{◌≤◌};

#[cfg(test)]
mod tests {
    use crate::answers::declined;
    use book::work::work;
    use calls::outcome::Outcome;
    use cells::cell::Cell;
    use panels::lamps::page;
    use plain::call::Call;
    use rows::kind::Kind;

    // A call, and the number of what it is to come to.
    #[derive(Clone, Copy)]
    struct Told {
        call: Call,
        number: u32,
    }

    impl Told {
        // Whether a call came to its number, and showed no lamps and asked for no product where it was declined.
        fn is_met(&self, outcome: &Outcome) -> bool {
            if self.number == 0 {
                outcome.number() == 0
            } else {
                declined(*outcome, self.number)
            }
        }
    }

    // Works the calls of a table on a book of sixteen cells; tells at which place, if any, one came to another number, or
    // was declined with lamps or products.
    fn first_other<const N: usize>(table: &[Told; N]) -> Option<usize>
        requires few { N ≤ 32 }
    {
        let calls: [Call; N] = std::array::from_fn(|at| table[at].call);
        let mut outcomes = [Outcome::dark(None, 0); N];
        let mut cells = [Cell::blank(0u32); 16];
        let mut pages = page();
        work(&mut cells, &mut pages, &calls, &mut outcomes);
        table
            .iter()
            .zip(outcomes.iter())
            .position(|(told, outcome)| !told.is_met(outcome))
    }

    fn open(tag: u32, number: u32) -> Told {
        let call = Call::Open { tag };
        Told { call, number }
    }

    fn copy(tag: u32, new: u32, number: u32) -> Told {
        let call = Call::Copy { tag, new };
        Told { call, number }
    }

    fn rename(tag: u32, new: u32, number: u32) -> Told {
        let call = Call::Rename { tag, new };
        Told { call, number }
    }

    fn close(tag: u32, number: u32) -> Told {
        let call = Call::Close { tag };
        Told { call, number }
    }

    fn insert(tag: u32, row: u32, number: u32) -> Told {
        let kind = Kind::Item;
        let call = Call::Insert { tag, row, kind };
        Told { call, number }
    }

    fn strike(tag: u32, row: u32, number: u32) -> Told {
        let call = Call::Strike { tag, row };
        Told { call, number }
    }

    fn replace(tag: u32, row: u32, number: u32) -> Told {
        let kind = Kind::Note;
        let call = Call::Replace { tag, row, kind };
        Told { call, number }
    }

    fn whole(tag: u32, number: u32) -> Told {
        let call = Call::Whole { tag };
        Told { call, number }
    }

    fn range(tag: u32, first: u32, last: u32, number: u32) -> Told {
        let call = Call::Range { tag, first, last };
        Told { call, number }
    }

    fn pause(tag: u32, number: u32) -> Told {
        let call = Call::Pause { tag };
        Told { call, number }
    }

    fn recalculate(tag: u32, number: u32) -> Told {
        let call = Call::Recalculate { tag };
        Told { call, number }
    }

    #[test]
    fn tags_come_first(rt: HostRuntime) {
        let table = [
            open(0, 1),
            open(10_000, 1),
            copy(0, 0, 1),
            copy(1, 10_000, 1),
            rename(10_000, 1, 1),
            rename(1, 0, 1),
            close(0, 1),
            insert(0, 0, 1),
            strike(10_000, 0, 1),
            replace(0, 9, 1),
            whole(4_294_967_295, 1),
            range(0, 0, 5, 1),
            pause(10_000, 1),
            recalculate(0, 1),
            open(9_999, 0),
            open(1, 0),
            rename(9_999, 9_998, 0),
        ];
        assert_eq!(rt; first_other(&table), None);
    }

    #[test]
    fn then_the_sheet(rt: HostRuntime) {
        let table = [
            open(1, 0),
            copy(2, 1, 2),
            rename(2, 1, 2),
            close(2, 2),
            insert(2, 0, 2),
            strike(2, 0, 2),
            replace(2, 9, 2),
            whole(2, 2),
            range(2, 0, 5, 2),
            pause(2, 2),
            recalculate(2, 2),
            close(1, 0),
            whole(1, 2),
            open(1, 0),
        ];
        assert_eq!(rt; first_other(&table), None);
    }

    #[test]
    fn then_the_new_tag(rt: HostRuntime) {
        let table = [
            open(1, 0),
            open(1, 3),
            open(2, 0),
            copy(1, 1, 3),
            rename(2, 2, 3),
            pause(1, 0),
            copy(1, 2, 3),
            rename(1, 2, 3),
            recalculate(1, 0),
            rename(1, 3, 0),
            rename(1, 3, 2),
            copy(2, 3, 3),
            copy(2, 1, 0),
        ];
        assert_eq!(rt; first_other(&table), None);
    }

    #[test]
    fn then_eight_sheets(rt: HostRuntime) {
        let table = [
            open(1, 0),
            open(2, 0),
            open(3, 0),
            open(4, 0),
            open(5, 0),
            open(6, 0),
            open(7, 0),
            open(8, 0),
            open(8, 3),
            open(9, 4),
            copy(1, 8, 3),
            copy(1, 9, 4),
            pause(1, 0),
            copy(1, 9, 4),
            rename(2, 9, 0),
            close(9, 0),
            copy(1, 9, 5),
            copy(3, 9, 0),
            open(2, 4),
            recalculate(1, 0),
            copy(1, 2, 4),
        ];
        assert_eq!(rt; first_other(&table), None);
    }

    #[test]
    fn then_settled_or_paused(rt: HostRuntime) {
        let table = [
            open(1, 0),
            recalculate(1, 6),
            insert(1, 1, 0),
            pause(1, 0),
            copy(1, 2, 5),
            rename(1, 2, 5),
            close(1, 5),
            pause(1, 5),
            whole(1, 5),
            range(1, 0, 9, 5),
            insert(1, 1, 0),
            replace(1, 2, 0),
            strike(1, 1, 0),
            strike(1, 2, 7),
            recalculate(1, 0),
            recalculate(1, 6),
            whole(1, 0),
            range(1, 0, 9, 7),
            pause(1, 0),
        ];
        assert_eq!(rt; first_other(&table), None);
    }

    #[test]
    fn then_the_row(rt: HostRuntime) {
        let table = [
            open(1, 0),
            strike(1, 1, 7),
            replace(1, 1, 7),
            insert(1, 0, 7),
            insert(1, 2, 7),
            insert(1, 1, 0),
            insert(1, 3, 7),
            insert(1, 2, 0),
            insert(1, 4_294_967_295, 7),
            strike(1, 0, 7),
            strike(1, 3, 7),
            replace(1, 0, 7),
            replace(1, 3, 7),
            replace(1, 2, 0),
            strike(1, 2, 0),
            strike(1, 2, 7),
            strike(1, 1, 0),
        ];
        assert_eq!(rt; first_other(&table), None);
    }

    #[test]
    fn ranges_of_two_rows(rt: HostRuntime) {
        let table = [
            open(1, 0),
            range(1, 1, 0, 0),
            range(1, 1, 1, 7),
            insert(1, 1, 0),
            insert(1, 2, 0),
            range(1, 1, 2, 0),
            range(1, 2, 2, 0),
            range(1, 1, 0, 0),
            range(1, 2, 1, 0),
            range(1, 3, 2, 0),
            range(1, 0, 0, 7),
            range(1, 0, 2, 7),
            range(1, 4, 3, 7),
            range(1, 3, 3, 7),
            range(1, 1, 3, 7),
            range(1, 2, 0, 7),
            range(1, 3, 1, 7),
            range(1, 4_294_967_295, 4_294_967_294, 7),
        ];
        assert_eq!(rt; first_other(&table), None);
    }

    #[test]
    fn then_the_room(rt: HostRuntime) {
        let table = [
            open(1, 0),
            insert(1, 1, 0),
            insert(1, 1, 0),
            insert(1, 1, 0),
            insert(1, 1, 0),
            copy(1, 2, 0),
            copy(2, 3, 0),
            copy(3, 4, 0),
            copy(1, 5, 8),
            insert(1, 6, 7),
            insert(1, 5, 8),
            pause(1, 0),
            copy(1, 5, 5),
            insert(1, 6, 7),
            insert(1, 1, 8),
            replace(1, 4, 0),
            strike(1, 4, 0),
            insert(4, 5, 0),
            insert(4, 6, 8),
            recalculate(1, 0),
            copy(1, 5, 8),
            open(5, 0),
            insert(5, 1, 8),
            close(4, 0),
            copy(1, 4, 0),
            insert(5, 1, 0),
            insert(5, 1, 0),
            insert(5, 1, 8),
        ];
        assert_eq!(rt; first_other(&table), None);
    }
}
