// The program over a reader that fails midway: it writes nothing, says so on standard error and ends with status 1.
#![tactic(auto)]

use std::io;
use std::io::{ErrorKind, Read};
use watch::program::list_script;

// Gives one line, and then fails.
#[derive(Drop)]
struct Broken {
    rest: &'static [u8],
}

impl Read for Broken {
    fn read(&mut self, buffer: &mut [u8]) -> io::Result<usize> {
        if self.rest.is_empty() {
            return Err(io::Error::from(ErrorKind::BrokenPipe));
        }
        let count = self.rest.len().min(buffer.len());
        buffer[..count].copy_from_slice(&self.rest[..count]);
        self.rest = &self.rest[count..];
        Ok(count)
    }
}

fn main(rt: HostRuntime) -> anyhow::Result<()> {
    let mut broken = Broken { rest: b"open,7\n" };
    list_script(&mut broken, &mut io::writer(&rt), rt.alloc())?;
    Ok(())
}
