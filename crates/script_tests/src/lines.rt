use plain::call::Call;
use rows::kind::Kind;
use script::cursor::Cursor;
use script::fault::{Cause, Fault};
use script::line::{count_lines, next_line};
use std::process::Abort;

// A script of one line, read as line 9: what it says, and nothing is left.
fn says(rt: &impl Abort, script: &[u8], expected: Result<Call, Fault>) {
    let mut cursor = Cursor::over(script);
    assert_eq!(rt; next_line(script, &mut cursor, 9), expected);
    assert!(rt; cursor.is_done(script));
}

fn calls(rt: &impl Abort, script: &[u8], call: Call) {
    says(rt, script, Ok(call));
}

fn fails(rt: &impl Abort, script: &[u8], cause: Cause, field: u32) {
    says(
        rt,
        script,
        Err(Fault {
            cause,
            line: 9,
            field,
        }),
    );
}

#[test]
fn commands(rt: HostRuntime) {
    calls(&rt, b"open,7", Call::Open { tag: 7 });
    calls(&rt, b"copy,7,8\n", Call::Copy { tag: 7, new: 8 });
    calls(&rt, b"rename,7,8", Call::Rename { tag: 7, new: 8 });
    calls(&rt, b"close,9999", Call::Close { tag: 9999 });
    calls(
        &rt,
        b"insert,7,1,H",
        Call::Insert {
            tag: 7,
            row: 1,
            kind: Kind::Heading,
        },
    );
    calls(&rt, b"strike,7,2", Call::Strike { tag: 7, row: 2 });
    calls(
        &rt,
        b"replace,8,1,B",
        Call::Replace {
            tag: 8,
            row: 1,
            kind: Kind::Blank,
        },
    );
    calls(&rt, b"whole,7", Call::Whole { tag: 7 });
    calls(
        &rt,
        b"range,1,2,3",
        Call::Range {
            tag: 1,
            first: 2,
            last: 3,
        },
    );
}

#[test]
fn no_commands(rt: HostRuntime) {
    fails(&rt, b"\n", Cause::NoCommand, 1);
    fails(&rt, b"Open,7", Cause::NoCommand, 1);
    fails(&rt, b"opens,7", Cause::NoCommand, 1);
    fails(&rt, b"pause,7", Cause::NoCommand, 1);
    fails(&rt, b"open,7,", Cause::WrongFieldCount, 0);
    fails(&rt, b"open", Cause::WrongFieldCount, 0);
    fails(&rt, b"range,1,2,x,4", Cause::WrongFieldCount, 0);
}

#[test]
fn numbers_and_kinds(rt: HostRuntime) {
    calls(&rt, b"open,00007", Call::Open { tag: 7 });
    calls(&rt, b"open,12345", Call::Open { tag: 12345 });
    fails(&rt, b"open,123456", Cause::BadNumber, 2);
    fails(&rt, b"open,", Cause::BadNumber, 2);
    fails(&rt, b"open,7\r\n", Cause::BadNumber, 2);
    fails(&rt, b"insert,7,1,X", Cause::BadKind, 4);
    fails(&rt, b"insert,7,1,HH", Cause::BadKind, 4);
    fails(&rt, b"insert,7,a,X", Cause::BadNumber, 3);
    fails(&rt, b"insert,a,b,X", Cause::BadNumber, 2);
}

// Lines of 63, 64 and 65 bytes.
#[test]
fn long_lines(rt: HostRuntime) {
    fails(
        &rt,
        b"open,1234567890123456789012345678901234567890123456789012345678",
        Cause::BadNumber,
        2,
    );
    fails(
        &rt,
        b"open,12345678901234567890123456789012345678901234567890123456789",
        Cause::BadNumber,
        2,
    );
    fails(
        &rt,
        b"open,123456789012345678901234567890123456789012345678901234567890",
        Cause::LineTooLong,
        0,
    );
}

#[test]
fn several_lines(rt: HostRuntime) {
    let script = b"nonsense\nopen,7";
    let mut cursor = Cursor::over(script);
    let first = next_line(script, &mut cursor, 1);
    assert_eq!(rt;
        first,
        Err(Fault {
            cause: Cause::NoCommand,
            line: 1,
            field: 1,
        })
    );
    assert_eq!(rt;
        next_line(script, &mut cursor, 2),
        Ok(Call::Open { tag: 7 })
    );
    assert!(rt; cursor.is_done(script));
    assert_eq!(rt; count_lines(script), 2);
    assert_eq!(rt; count_lines(b""), 0);
    assert_eq!(rt; count_lines(b"\n"), 1);
    assert_eq!(rt; count_lines(b"a\n\nb\n"), 3);
}
