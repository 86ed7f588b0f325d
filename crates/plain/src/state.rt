// Whether a sheet's stored products are kept true, or may be stale until it is recalculated.
#[derive(Clone, Copy, PartialEq, Eq, Debug)]
pub enum State {
    Settled,
    Paused,
}
