use crate::streams::{AtEnd, Sink, Source};
use std::test::Fail;
use watch::program::{Failure, list_script};

const SCRIPT: &[u8] = b"open,7\ninsert,7,1,C\nwhole,7";

const LISTING: &[u8] =
    b"panel,1\n1,0,0,-\n2,0,0,-\n3,0,0,0001\nend,0,3\npanel,2\n1,0,0,-\n2,0,0,-\n3,0,0,1\nend,0,3\n";

// Read a few bytes at a time and written a few at a time, and interrupted: the same listing.
#[test]
fn short_reads_and_writes(rt: HostRuntime) -> Result<(), Fail> {
    for most in [1, 5, 100] {
        let mut sink = Sink::with_room(1000, AtEnd::Fails, rt.alloc());
        list_script(
            &mut Source::over(SCRIPT, most, false),
            &mut sink,
            rt.alloc(),
        )?;
        assert!(&rt; sink.got.as_slice() == LISTING);
    }
    Ok(())
}

// At once, after some bytes of the script, and after all of it: nothing is written.
#[test]
fn failing_readers(rt: HostRuntime) -> Result<(), Fail> {
    for given in [0, 9, SCRIPT.len()] {
        let mut sink = Sink::with_room(1000, AtEnd::Fails, rt.alloc());
        let mut source = Source::over(&SCRIPT[..given], 5, true);
        let result = list_script(&mut source, &mut sink, rt.alloc());
        assert!(&rt; matches!(&result, Err(Failure::Unread(_))));
        assert!(&rt; sink.got.is_empty());
    }
    Ok(())
}

// At once, within panel 1, between the panels, and before the last byte: what was written is the front of the listing.
#[test]
fn failing_writers(rt: HostRuntime) -> Result<(), Fail> {
    for at_end in [AtEnd::Fails, AtEnd::TakesNone] {
        for room in [0, 20, 43, LISTING.len() - 1] {
            let mut sink = Sink::with_room(room, at_end, rt.alloc());
            let result = list_script(&mut Source::over(SCRIPT, 100, false), &mut sink, rt.alloc());
            assert!(&rt; matches!(&result, Err(Failure::Unwritten(_))));
            assert!(&rt; sink.got.as_slice() == &LISTING[..room]);
        }
    }
    Ok(())
}

#[test]
fn failing_flush(rt: HostRuntime) -> Result<(), Fail> {
    let mut sink = Sink::with_room(1000, AtEnd::Fails, rt.alloc());
    sink.flush_fails = true;
    let result = list_script(&mut Source::over(SCRIPT, 100, false), &mut sink, rt.alloc());
    assert!(&rt; matches!(&result, Err(Failure::Unwritten(_))));
    assert!(&rt; sink.got.as_slice() == LISTING);
    Ok(())
}
