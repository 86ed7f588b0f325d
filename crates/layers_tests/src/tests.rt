// Words worked out by hand: C is a collection, N a note.
#[cfg(test)]
mod tests {
    use crate::first::First;
    use layers::all::All;
    use layers::not::Not;
    use layers::reversed::Reversed;
    use layers::side_by_side::SideBySide;
    use memo::memo::Memo;
    use monoid::fold::word_lamps;
    use monoid::recogniser::Recogniser;
    use rows::kind::Kind;

    const EMPTY: [Kind; 0] = [];

    const C: [Kind; 1] = [Kind::Collection];

    const N: [Kind; 1] = [Kind::Note];

    const CN: [Kind; 2] = [Kind::Collection, Kind::Note];

    const NC: [Kind; 2] = [Kind::Note, Kind::Collection];

    const CNC: [Kind; 3] = [Kind::Collection, Kind::Note, Kind::Collection];

    type Four = SideBySide<First, First>;

    type Eight = SideBySide<Four, Four>;

    fn four() -> Four {
        SideBySide::new(First::new(), First::new())
    }

    fn eight() -> Eight {
        SideBySide::new(four(), four())
    }

    // The first lamps of a word, a digit each from lamp 0.
    fn shown<R: Recogniser>(pile: &mut R, word: &[Kind], count: usize) -> u32 {
        let lamps = word_lamps(pile, word);
        (0..count).fold(
            0,
            |digits, lamp| (digits << 1) | u32::from(lamps.lights(lamp)),
        )
    }

    #[test]
    fn not_turns_each_lamp_over(rt: HostRuntime) {
        let mut pile = Not::new(First::new());
        assert_eq!(rt; shown(&mut pile, &EMPTY, 3), 0b110);
        assert_eq!(rt; shown(&mut pile, &NC, 3), 0b100);
        assert_eq!(rt; shown(&mut pile, &C, 3), 0b000);
        assert_eq!(rt; pile.asked(), 3);
    }

    #[test]
    fn all_wants_every_lamp(rt: HostRuntime) {
        let mut pile = All::new(First::new());
        assert_eq!(rt; pile.width(), 1);
        assert_eq!(rt; shown(&mut pile, &EMPTY, 2), 0b00);
        assert_eq!(rt; shown(&mut pile, &CN, 2), 0b10);
        assert_eq!(rt; shown(&mut pile, &NC, 2), 0b00);
    }

    #[test]
    fn reversed_reads_backwards(rt: HostRuntime) {
        let mut pile = Reversed::new(First::new());
        assert_eq!(rt; shown(&mut pile, &CN, 2), 0b01);
        assert_eq!(rt; shown(&mut pile, &NC, 2), 0b11);
    }

    #[test]
    fn lamps_up_to_the_sixteenth(rt: HostRuntime) {
        let mut pile = SideBySide::new(eight(), eight());
        assert_eq!(rt; pile.width(), 16);
        assert_eq!(rt; shown(&mut pile, &N, 20), 0b0101_0101_0101_0101_0000);
    }

    // Twelve lamps beside eight: the last four of the right are cut off.
    #[test]
    fn lamps_past_the_sixteenth(rt: HostRuntime) {
        let left = SideBySide::new(eight(), Not::new(four()));
        let mut pile = SideBySide::new(left, eight());
        assert_eq!(rt; pile.width(), 16);
        assert_eq!(rt; shown(&mut pile, &C, 20), 0b1111_1111_0000_1111_0000);
    }

    #[test]
    fn memo_asks_once(rt: HostRuntime) {
        let mut pile = Memo::new(First::new());
        assert_eq!(rt; shown(&mut pile, &CN, 2), 0b11);
        assert_eq!(rt; shown(&mut pile, &CN, 2), 0b11);
        assert_eq!(rt; pile.asked_below(), 2);
        assert_eq!(rt; pile.asked(), 4);
    }

    // Lit unless the word both begins and ends with a collection.
    #[test]
    fn a_deep_pile(rt: HostRuntime) {
        let ends = Reversed::new(Memo::new(First::new()));
        let mut pile = Not::new(All::new(SideBySide::new(ends, First::new())));
        assert_eq!(rt; shown(&mut pile, &EMPTY, 2), 0b10);
        assert_eq!(rt; shown(&mut pile, &C, 2), 0b00);
        assert_eq!(rt; shown(&mut pile, &CN, 2), 0b10);
        assert_eq!(rt; shown(&mut pile, &CNC, 2), 0b00);
    }
}
