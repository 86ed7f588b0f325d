use std::alloc::Global;
use std::io;
use std::io::{ErrorKind, Read, Write};

// Gives its bytes a few at a time, is interrupted once before the first, and fails at their end if it is to.
#[derive(Drop)]
pub struct Source<'a> {
    pub rest: &'a [u8],
    pub most: usize,
    pub fails: bool,
    interrupted: bool,
}

impl<'a> Source<'a> {
    pub fn over(rest: &'a [u8], most: usize, fails: bool) -> Source<'a> {
        Source {
            rest,
            most,
            fails,
            interrupted: false,
        }
    }
}

impl Read for Source<'_> {
    fn read(&mut self, buffer: &mut [u8]) -> io::Result<usize> {
        if !self.interrupted {
            self.interrupted = true;
            return Err(io::Error::from(ErrorKind::Interrupted));
        }
        if self.rest.is_empty() && self.fails {
            return Err(io::Error::from(ErrorKind::BrokenPipe));
        }
        let count = self.rest.len().min(buffer.len()).min(self.most);
        buffer[..count].copy_from_slice(&self.rest[..count]);
        self.rest = &self.rest[count..];
        Ok(count)
    }
}

// What a write does once there is no room, or a flush.
#[derive(Clone, Copy, PartialEq, Eq)]
pub enum AtEnd {
    Fails,
    TakesNone,
}

// Takes bytes a few at a time while it has room, and is interrupted once before the first.
#[derive(Drop)]
pub struct Sink {
    pub got: Vec<u8>,
    room: usize,
    at_end: AtEnd,
    pub flush_fails: bool,
    interrupted: bool,
}

impl Sink {
    pub fn with_room(room: usize, at_end: AtEnd, alloc: Global) -> Sink {
        Sink {
            got: Vec::new(alloc),
            room,
            at_end,
            flush_fails: false,
            interrupted: false,
        }
    }
}

impl Write for Sink {
    fn write(&mut self, bytes: &[u8]) -> io::Result<usize> {
        if !self.interrupted {
            self.interrupted = true;
            return Err(io::Error::from(ErrorKind::Interrupted));
        }
        let left = self.room.saturating_sub(self.got.len());
        if left == 0 && self.at_end == AtEnd::Fails {
            return Err(io::Error::from(ErrorKind::BrokenPipe));
        }
        let count = bytes.len().min(left).min(7);
        self.got.extend_from_slice(&bytes[..count])?;
        Ok(count)
    }

    fn flush(&mut self) -> io::Result<()> {
        if self.flush_fails {
            return Err(io::Error::from(ErrorKind::BrokenPipe));
        }
        Ok(())
    }
}
