ghost use Rattle.watch.specs.Streams.{Filled, ReadAtMost, ScriptRead};

use listing::ending::LONGEST_SCRIPT;
use std::alloc::Global;
use std::io;
use std::io::{ErrorKind, Read};

// How many bytes are read at the most: the one past the longest script tells that a script is longer.
const MOST_READ: usize = LONGEST_SCRIPT + 1;

// Reads a script: all that the reader gives, or of more than a script may have its first 16,385 bytes.
#[tactic(auto, using(crate::proofs::Listed::script_read))]
pub fn read_script<R: Read>(reader: &mut R, alloc: Global) -> io::Result<Vec<u8>>
    ensures read { ScriptRead (R.remaining reader.old) (R.remaining reader.new) result }
{
    read_at_most(reader, MOST_READ, alloc)
}

// Reads all that the reader gives, or so many bytes if it has more.
fn read_at_most<R: Read>(reader: &mut R, most: usize, alloc: Global) -> io::Result<Vec<u8>>
    ensures read { ReadAtMost (R.remaining reader.old) (R.remaining reader.new) most result }
{
    let mut bytes = vec![in alloc; 0u8; most]?;
    let count = fill(reader, bytes.as_mut_slice())?;
    bytes.truncate(count);
    Ok(bytes)
}

// Reads until the buffer is full or the reader at its end, and answers how many bytes that were. A read that was
// interrupted is made again.
fn fill<R: Read>(reader: &mut R, buffer: &mut [u8]) -> io::Result<usize>
    ensures filled { Filled (R.remaining reader.old) (R.remaining reader.new) result buffer.new }
{
    let mut filled = 0;
    for _ in 0..u64::MAX {
        if filled == buffer.len() {
            return Ok(filled);
        }
        match reader.read(&mut buffer[filled..]) {
            Ok(0) => return Ok(filled),
            Ok(count) => filled += count,
            Err(error) => {
                if error.kind() != ErrorKind::Interrupted {
                    return Err(error);
                }
            }
        }
    }
    Err(io::Error::from(ErrorKind::TimedOut))
}
