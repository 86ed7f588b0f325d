// Tests of automata.
#![tactic(auto)]

#[cfg(test)]
mod tests {
    use automaton::automaton::Automaton;
    use automaton::data::{AutomatonData, MOST};
    use checks::data::Data;
    use checks::verdict::number;
    use monoid::fold::word_lamps;
    use monoid::recogniser::Recogniser;
    use rows::kind::{KINDS, Kind};

    const H: Kind = Kind::Heading;

    const I: Kind = Kind::Item;

    const R: Kind = Kind::RateOnly;

    const P: Kind = Kind::ProvisionalSum;

    const N: Kind = Kind::Note;

    const C: Kind = Kind::Collection;

    const S: Kind = Kind::Summary;

    const B: Kind = Kind::Blank;

    // Every row leads to state 0, and no state is lit.
    fn plain(states: u8) -> AutomatonData {
        AutomatonData {
            states,
            start: 0,
            next: [[0; KINDS]; MOST],
            lit: [false; MOST],
        }
    }

    // Every collection closes a heading: 0 is outside, 1 inside, 2 broken.
    fn closed() -> AutomatonData {
        let mut data = plain(3);
        data.next[0] = [1, 2, 2, 2, 0, 2, 0, 0];
        data.next[1] = [2, 1, 1, 1, 1, 0, 2, 1];
        data.next[2] = [2; KINDS];
        data.lit[0] = true;
        data
    }

    // Two notes adjoin: 0 is after no note, 1 after one, 2 from the second on.
    fn adjoining_notes() -> AutomatonData {
        let mut data = plain(3);
        data.next[0] = [0, 0, 0, 0, 1, 0, 0, 0];
        data.next[1] = [0, 0, 0, 0, 2, 0, 0, 0];
        data.next[2] = [2; KINDS];
        data.lit[2] = true;
        data
    }

    fn lights(data: AutomatonData, word: &[Kind]) -> bool {
        let mut automaton = Automaton::new(data);
        word_lamps(&mut automaton, word).lights(0)
    }

    #[test]
    fn numbers_of_states(rt: HostRuntime) {
        assert_eq!(rt; number(plain(0).check()), 21);
        assert_eq!(rt; number(plain(1).check()), 0);
        assert_eq!(rt; number(plain(16).check()), 0);
        assert_eq!(rt; number(plain(17).check()), 21);
        assert_eq!(rt; number(plain(200).check()), 21);
    }

    #[test]
    fn entries_below_the_number(rt: HostRuntime) {
        let mut start = plain(3);
        start.start = 2;
        assert_eq!(rt; number(start.check()), 0);
        start.start = 3;
        assert_eq!(rt; number(start.check()), 22);
        start.states = 17;
        assert_eq!(rt; number(start.check()), 21);
        let mut next = plain(3);
        next.next[3][0] = 200;
        next.next[2][7] = 2;
        assert_eq!(rt; number(next.check()), 0);
        next.next[2][7] = 3;
        assert_eq!(rt; number(next.check()), 22);
        let mut lit = plain(3);
        lit.lit[2] = true;
        assert_eq!(rt; number(lit.check()), 0);
        lit.lit[3] = true;
        assert_eq!(rt; number(lit.check()), 22);
    }

    #[test]
    fn closed_words(rt: HostRuntime) {
        assert!(rt; lights(closed(), &[]));
        assert!(rt; lights(closed(), &[H, I, C]));
        assert!(rt; lights(closed(), &[N, H, R, P, N, B, C, S, B, H, C]));
        assert!(rt; !lights(closed(), &[H, I]));
        assert!(rt; !lights(closed(), &[P]));
        assert!(rt; !lights(closed(), &[H, H]));
        assert!(rt; !lights(closed(), &[H, H, C, C]));
        assert!(rt; !lights(closed(), &[H, S, C]));
        assert!(rt; !lights(closed(), &[C]));
    }

    #[test]
    fn words_with_adjoining_notes(rt: HostRuntime) {
        assert!(rt; !lights(adjoining_notes(), &[]));
        assert!(rt; !lights(adjoining_notes(), &[N]));
        assert!(rt; !lights(adjoining_notes(), &[N, B, N]));
        assert!(rt; lights(adjoining_notes(), &[N, N]));
        assert!(rt; lights(adjoining_notes(), &[H, N, N, C, N, B]));
    }

    // Sixteen states in a ring, lit at the last: a row leads to the next state.
    #[test]
    fn as_many_states_as_may_be(rt: HostRuntime) {
        let mut ring = plain(16);
        for (row, next) in ring.next.iter_mut().zip(1..16) {
            *row = [next; KINDS];
        }
        ring.lit[15] = true;
        assert!(rt; !lights(ring, &[B; 14]));
        assert!(rt; lights(ring, &[B; 15]));
        assert!(rt; !lights(ring, &[B; 16]));
        assert!(rt; lights(ring, &[B; 31]));
    }

    #[test]
    fn declined_data_never_light(rt: HostRuntime) {
        let mut data = closed();
        data.lit = [true; MOST];
        assert!(rt; !lights(data, &[]));
        assert!(rt; !lights(data, &[H, I, C]));
    }

    #[test]
    fn products_are_counted(rt: HostRuntime) {
        let mut automaton = Automaton::new(closed());
        assert_eq!(rt; automaton.width(), 1);
        assert_eq!(rt; automaton.asked(), 0);
        let lamps = word_lamps(&mut automaton, &[H, I, C]);
        assert_eq!(rt; lamps.width(), 1);
        assert_eq!(rt; automaton.asked(), 3);
    }
}
