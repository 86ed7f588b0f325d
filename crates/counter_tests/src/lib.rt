// Tests of counters: verdicts on data, and lamps of words, worked out by hand.
#![tactic(auto)]

#[cfg(test)]
mod tests {
    use checks::verdict;
    use counter::counter::Counter;
    use counter::data::CounterData;
    use monoid::fold::word_lamps;
    use monoid::recogniser::Recogniser;
    use rows::kind::Kind;

    fn data(modulus: u32, weight: u32, residue: u32) -> CounterData {
        CounterData {
            modulus,
            weights: [weight; 8],
            residue,
        }
    }

    fn number(modulus: u32, weight: u32, residue: u32) -> u8 {
        verdict::number(data(modulus, weight, residue).check())
    }

    #[test]
    fn moduli(rt: HostRuntime) {
        assert_eq!(rt; number(0, 0, 0), 21);
        assert_eq!(rt; number(1, 0, 0), 0);
        assert_eq!(rt; number(1_000_000, 999_999, 999_999), 0);
        assert_eq!(rt; number(1_000_001, 0, 0), 21);
        assert_eq!(rt; number(4_294_967_295, 0, 0), 21);
    }

    #[test]
    fn entries(rt: HostRuntime) {
        assert_eq!(rt; number(10, 9, 9), 0);
        assert_eq!(rt; number(10, 10, 0), 22);
        assert_eq!(rt; number(10, 0, 10), 22);
        assert_eq!(rt; number(1, 1, 0), 22);
        assert_eq!(rt; number(0, 5, 5), 21);
    }

    // Whether a counter is lit after a word.
    fn lit_after(counter: &mut Counter, word: &[Kind]) -> bool {
        word_lamps(counter, word).lights(0)
    }

    #[test]
    fn words(rt: HostRuntime) {
        let mut by_twos = Counter::new(data(5, 2, 1));
        assert!(rt; !lit_after(&mut by_twos, &[]));
        assert!(rt; !lit_after(&mut by_twos, &[Kind::Blank, Kind::Blank]));
        assert!(rt; lit_after(&mut by_twos, &[Kind::Blank, Kind::Note, Kind::Item]));
        assert_eq!(rt; by_twos.asked(), 5);
        assert_eq!(rt; by_twos.width(), 1);
    }

    #[test]
    fn declined_data_stay_dark(rt: HostRuntime) {
        let mut dark = Counter::new(data(0, 0, 0));
        assert!(rt; !lit_after(&mut dark, &[]));
        assert!(rt; !lit_after(&mut dark, &[Kind::Heading]));
    }
}
