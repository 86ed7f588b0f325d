ghost use Rattle.std.specs.Prelude.{◌≡◌, ◌++◌, min, IfOk, string_bytes};
ghost use Rattle.watch.specs.Streams.{Received};
ghost use Rattle.listing.specs.Listings.{run, lamps_by};
ghost use Rattle.watch.specs.Whole.{Tells, panel_line, end_line, panel_listing, run_listing, whole_listing};

use crate::blank::blank_cell;
use crate::panel::Panel;
use crate::run::run_panel;
use panels::panels::{PanelOne, PanelTwo};
use std::alloc::Global;
use std::io;
use std::io::{ErrorKind, Write};

// How many cells the run under each panel is lent, and how many bytes of output.
pub const CELLS: usize = 512;

pub const OUTPUT: usize = 65_536;

// Writes the listing of a script: that of its run under panel 1, then that under panel 2.
pub fn write_listing<W: Write>(script: &[u8], writer: &mut W, alloc: Global) -> io::Result<()>
    ensures received { Received (W.contents writer.old) (W.contents writer.new) result (whole_listing script.now) }
{
    write_panel::<PanelOne, W>(script, writer, alloc)?;
    write_panel::<PanelTwo, W>(script, writer, alloc)?;
    writer.flush()
}

// Writes the listing of a script's run under a panel.
#[tactic(auto, unfolding(crate::specs::Whole::panel_listing))]
fn write_panel<P: Panel, W: Write>(script: &[u8], writer: &mut W, alloc: Global) -> io::Result<()>
    ensures received { Received (W.contents writer.old) (W.contents writer.new) result (panel_listing P.NUMBER P.shown script.now) }
{
    write_run::<P, W>(script, CELLS, OUTPUT, writer, alloc)
}

// Writes the listing of a script's run under a panel that is lent so many cells and bytes of output.
pub fn write_run<P: Panel, W: Write>(
    script: &[u8],
    cells: usize,
    output: usize,
    writer: &mut W,
    alloc: Global,
) -> io::Result<()>
    ensures received { Received (W.contents writer.old) (W.contents writer.new) result (run_listing P.NUMBER P.shown (min cells 4096) output script.now) }
{
    let (number, lines, answers) = run_over::<P>(script, cells, output, alloc)?;
    let first = panel_line(P::NUMBER, alloc)?;
    let last = end_line(number, lines, alloc)?;
    write_parts(
        writer,
        first.as_bytes(),
        answers.as_slice(),
        last.as_bytes(),
    )
}

// Runs a script under a panel, over so many cells and bytes of output: the number of its ending, the lines that it worked,
// and the bytes that it wrote.
fn run_over<P: Panel>(
    script: &[u8],
    cells: usize,
    output: usize,
    alloc: Global,
) -> io::Result<(u32, u32, Vec<u8>)>
    ensures tells { IfOk result (λ told. Tells (run (lamps_by P.shown) (min cells 4096) output script.now) told.0 told.1 told.2.items) }
{
    let mut cells = vec![in alloc; blank_cell(&P::fresh()); cells]?;
    let mut out = vec![in alloc; 0u8; output]?;
    let (number, lines, written) = run_panel::<P>(script, cells.as_mut_slice(), out.as_mut_slice());
    out.truncate(written);
    Ok((number, lines, out))
}

// Writes three texts, one after another.
fn write_parts<W: Write>(writer: &mut W, first: &[u8], middle: &[u8], last: &[u8]) -> io::Result<()>
    ensures received { Received (W.contents writer.old) (W.contents writer.new) result (first.now ++ (middle.now ++ last.now)) }
{
    write_bytes(writer, first)?;
    write_bytes(writer, middle)?;
    write_bytes(writer, last)
}

// The line that names a panel.
fn panel_line(panel: u8, alloc: Global) -> io::Result<String>
    ensures bytes { IfOk result (λ line. string_bytes line ≡ panel_line panel) }
{
    Ok(format!(in alloc; "panel,{panel}\n")?)
}

// The line that tells how a run ended.
fn end_line(number: u32, lines: u32, alloc: Global) -> io::Result<String>
    ensures bytes { IfOk result (λ line. string_bytes line ≡ end_line number lines) }
{
    Ok(format!(in alloc; "end,{number},{lines}\n")?)
}

// Writes bytes until the writer has received them all, or a write fails. A write that was interrupted is made again.
fn write_bytes<W: Write>(writer: &mut W, bytes: &[u8]) -> io::Result<()>
    ensures received { Received (W.contents writer.old) (W.contents writer.new) result bytes.now }
{
    let mut rest = bytes;
    for _ in 0..u64::MAX {
        if rest.is_empty() {
            return Ok(());
        }
        match writer.write(rest) {
            Ok(0) => return Err(io::Error::from(ErrorKind::WriteZero)),
            Ok(count) => rest = &rest[count..],
            Err(error) => {
                if error.kind() != ErrorKind::Interrupted {
                    return Err(error);
                }
            }
        }
    }
    Err(io::Error::from(ErrorKind::TimedOut))
}
