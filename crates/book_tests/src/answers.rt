use calls::outcome::Outcome;
use monoid::lamps::Lamps;
use plain::refusal::Refusal;

// Whether a call was declined with that number, which is tested with it, and showed no lamps and asked for no product.
pub fn declined(outcome: Outcome, expected: u32) -> bool {
    outcome.number() == expected && outcome.lamps == Lamps::none() && outcome.count == 0
}

// Whether a call was accepted and showed no lamps, for so many products.
pub fn done(outcome: Outcome, count: u64) -> bool {
    outcome.number() == 0 && outcome.lamps == Lamps::none() && outcome.count == count
}

// Whether a call was accepted, or met broken cells.
pub fn tried(outcome: Outcome) -> bool {
    matches!(outcome.refusal, None | Some(Refusal::BrokenCells))
}

// Whether a call was accepted and showed so many lamps, of which exactly those named `true` are lit.
pub fn shows<const N: usize>(outcome: Outcome, lit: [bool; N]) -> bool {
    let lamps = outcome.lamps;
    outcome.refusal.is_none()
        && lamps.width() == N
        && lit
            .iter()
            .enumerate()
            .all(|(lamp, lit)| lamps.lights(lamp) == *lit)
}
