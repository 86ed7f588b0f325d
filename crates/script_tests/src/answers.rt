use counter::counter::Counter;
use counter::data::CounterData;
use listing::answer::Answer;
use monoid::fold::word_lamps;
use monoid::lamps::Lamps;
use plain::refusal::Refusal;
use rows::kind::Kind;
use script::fault::{Cause, Fault};
use std::process::Abort;

// An answer written at place 2 of an output, and what the output then begins with.
fn writes(rt: &impl Abort, worked: Result<Lamps, Fault>, end: usize, expected: &[u8]) {
    let mut out = [b'.'; 98];
    assert_eq!(rt; Answer::to(12, worked).write(&mut out, 2), Some(end));
    assert!(rt; out.starts_with(expected));
}

#[test]
fn written(rt: HostRuntime) {
    let fault = Fault {
        cause: Cause::BadKind,
        line: 9,
        field: 4,
    };
    let refused = Fault {
        cause: Cause::Refused(Refusal::RowOutOfRange),
        line: 10,
        field: 0,
    };
    writes(&rt, Ok(Lamps::none()), 11, b"..12,0,0,-\n.");
    writes(&rt, Err(fault), 11, b"..9,35,4,-\n.");
    writes(&rt, Err(refused), 11, b"..10,7,0,-\n.");
}

// The lamp of a counter that is lit at an even number of rows.
#[test]
fn lamps(rt: HostRuntime) {
    let mut even = Counter::new(CounterData {
        modulus: 2,
        weights: [1; 8],
        residue: 0,
    });
    writes(&rt, Ok(word_lamps(&mut even, &[])), 11, b"..12,0,0,1\n.");
    writes(
        &rt,
        Ok(word_lamps(&mut even, &[Kind::Note])),
        11,
        b"..12,0,0,0\n.",
    );
}

// Nothing is written where 95 bytes are free.
#[test]
fn full(rt: HostRuntime) {
    let mut out = [b'.'; 97];
    assert_eq!(rt; Answer::to(12, Ok(Lamps::none())).write(&mut out, 2), None);
    assert!(rt; out.starts_with(b"....."));
}
