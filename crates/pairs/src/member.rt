// One of the two members of a pair. A value and no closure: what is promised of either is said by it.
#[derive(Clone, Copy, PartialEq, Eq, Debug)]
pub enum Member {
    First,
    Second,
}
