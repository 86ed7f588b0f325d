ghost use Rattle.watch.specs.Streams.{Served};

use crate::reading::read_script;
use crate::writing::write_listing;
use std::alloc::Global;
use std::io;
use std::io::{Read, Write};
use thiserror::Error;

// Why the listing of a script is not written, or not whole.
#[derive(Debug, Drop, Error)]
pub enum Failure {
    #[error("the script could not be read: {0}")]
    Unread(io::Error),
    #[error("the listing could not be written: {0}")]
    Unwritten(io::Error),
}

// Reads a script, and writes its listing under both panels: all that the program does.
pub fn list_script<R: Read, W: Write>(
    reader: &mut R,
    writer: &mut W,
    alloc: Global,
) -> Result<(), Failure>
    ensures served { Served (R.remaining reader.old) (R.remaining reader.new) (W.contents writer.old) (W.contents writer.new) result }
{
    let script = read_script(reader, alloc).map_err(Failure::Unread)?;
    write_listing(script.as_slice(), writer, alloc).map_err(Failure::Unwritten)
}
