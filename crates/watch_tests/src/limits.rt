use crate::streams::{AtEnd, Sink, Source};
use std::alloc::Global;
use std::io;
use std::io::Read;
use std::process::Abort;
use std::test::Fail;
use watch::program::list_script;

// What a script of these bytes gives. Under both panels it has these answers and this end, since it asks for no lamps.
fn gives<R: Read>(
    rt: &impl Abort,
    alloc: Global,
    script: &mut R,
    answers: &str,
    end: &str,
) -> Result<(), Fail> {
    let mut written = Vec::new(alloc);
    list_script(script, &mut written, alloc)?;
    let expected = format!(in alloc; "panel,1\n{answers}{end}panel,2\n{answers}{end}")?;
    assert!(rt; written.as_slice() == expected.as_bytes(), "{end}");
    Ok(())
}

fn add_answers(
    alloc: Global,
    answers: &mut String,
    lines: std::ops::RangeInclusive<u32>,
    rest: &str,
) -> Result<(), Fail> {
    for line in lines {
        answers.push_str(format!(in alloc; "{line},{rest}\n")?.as_str())?;
    }
    Ok(())
}

fn repeated(text: &[u8], times: usize, script: &mut Vec<u8>) -> Result<(), Fail> {
    for _ in 0..times {
        script.extend_from_slice(text)?;
    }
    Ok(())
}

// 512 rows have a cell, and the next has none.
#[test]
fn rows_in_512_cells(rt: HostRuntime) -> Result<(), Fail> {
    let mut script = Vec::new(rt.alloc());
    repeated(b"open,7\n", 1, &mut script)?;
    repeated(b"insert,7,1,H\n", 513, &mut script)?;
    let mut answers = String::new(rt.alloc());
    add_answers(rt.alloc(), &mut answers, 1..=513, "0,0,-")?;
    add_answers(rt.alloc(), &mut answers, 514..=514, "8,0,-")?;
    gives(
        &rt,
        rt.alloc(),
        &mut script.as_slice(),
        answers.as_str(),
        "end,0,514\n",
    )
}

// A script of 16,384 bytes. Its first 999 answers have 9 x 9 + 90 x 10 + 900 x 11 bytes, the next five 5 x 11 and 4,542 more
// 4,542 x 12, together 65,440: so exactly 96 of 65,536 are free before the one after them, and 84 past it.
#[test]
fn answers_in_65536_bytes(rt: HostRuntime) -> Result<(), Fail> {
    let mut script = Vec::new(rt.alloc());
    repeated(b"\n", 999, &mut script)?;
    for tag in 1..=5 {
        script.extend_from_slice(format!(in rt.alloc(); "open,{tag}\n")?.as_bytes())?;
    }
    repeated(b"\n", 15_350, &mut script)?;
    assert_eq!(&rt; script.len(), 16_384);
    let mut answers = String::new(rt.alloc());
    add_answers(rt.alloc(), &mut answers, 1..=999, "32,1,-")?;
    add_answers(rt.alloc(), &mut answers, 1000..=1004, "0,0,-")?;
    add_answers(rt.alloc(), &mut answers, 1005..=5547, "32,1,-")?;
    assert_eq!(&rt; answers.len(), 65_452);
    gives(
        &rt,
        rt.alloc(),
        &mut script.as_slice(),
        answers.as_str(),
        "end,37,5547\n",
    )
}

#[test]
fn scripts_of_16384_bytes(rt: HostRuntime) -> Result<(), Fail> {
    let mut script = Vec::new(rt.alloc());
    gives(&rt, rt.alloc(), &mut script.as_slice(), "", "end,0,0\n")?;
    repeated(b"x", 16_384, &mut script)?;
    gives(
        &rt,
        rt.alloc(),
        &mut script.as_slice(),
        "1,31,0,-\n",
        "end,0,1\n",
    )?;
    script.push(b'x')?;
    gives(&rt, rt.alloc(), &mut script.as_slice(), "", "end,38,0\n")?;
    gives(&rt, rt.alloc(), &mut io::repeat(b'\n'), "", "end,38,0\n")
}

// Of a longer script no more is read than its first 16,385 bytes.
#[test]
fn read_no_further(rt: HostRuntime) -> Result<(), Fail> {
    let mut script = Vec::new(rt.alloc());
    repeated(b"open,7\n", 3000, &mut script)?;
    let mut source = Source::over(script.as_slice(), 1000, true);
    let mut sink = Sink::with_room(1000, AtEnd::Fails, rt.alloc());
    list_script(&mut source, &mut sink, rt.alloc())?;
    assert_eq!(&rt; source.rest.len(), 4615);
    let expected: &[u8] = b"panel,1\nend,38,0\npanel,2\nend,38,0\n";
    assert!(&rt; sink.got.as_slice() == expected);
    Ok(())
}
