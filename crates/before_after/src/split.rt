use pairs::pair_set::PairSet;

// What two recognisers make of a word, and of the parts before and after each of its marked rows.
#[derive(Clone, Copy)]
pub struct Split<X, Y> {
    pub before: X,
    pub after: Y,
    pub pairs: PairSet,
}
