use rows::kind::Kind;

// A number below a bound for each turn, without pattern; 0 where there is none.
pub(crate) fn scattered(turn: u64, bound: u16) -> u16 {
    let mixed = turn.wrapping_add(1).wrapping_mul(0x9E37_79B9_7F4A_7C15);
    let mixed = (mixed ^ (mixed >> 32)).wrapping_mul(0xD6E8_FEB8_6659_FD93);
    let high = (mixed >> 48) as u16;
    high.checked_rem(bound).unwrap_or(0)
}

// A kind for each turn.
pub(crate) fn scattered_kind(turn: u64) -> Kind {
    Kind::at(usize::from(scattered(turn.wrapping_mul(3), 8))).unwrap_or(Kind::Blank)
}
