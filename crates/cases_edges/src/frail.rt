//! A reader and a writer of one byte a call, of which one call fails.

use std::alloc::Global;
use std::io;
use std::io::{ErrorKind, Read, Write};

/// A reader that gives the letters `a`, `b`, `c` and so on, `last` of them. The reads of two numbers, counted from 1, fail; 0
/// stands for none.
#[derive(Drop)]
pub struct FrailReader {
    pub last: u8,
    pub given: u8,
    pub reads: u64,
    pub bad: (u64, u64),
}

pub fn reader(last: u8, bad: (u64, u64)) -> FrailReader {
    FrailReader {
        last,
        given: 0,
        reads: 0,
        bad,
    }
}

impl Read for FrailReader {
    fn read(&mut self, buf: &mut [u8]) -> io::Result<usize> {
        self.reads = self.reads.saturating_add(1);
        if self.reads == self.bad.0 || self.reads == self.bad.1 {
            return Err(io::Error::from(ErrorKind::BrokenPipe));
        }
        if buf.is_empty() || self.given >= self.last {
            return Ok(0);
        }
        self.given += 1;
        buf[0] = b'`'.saturating_add(self.given);
        Ok(1)
    }
}

/// A writer that takes a byte a call. The write of the number `bad_write`, and the flush of the number `bad_flush`, counted
/// from 1, fail once, and from the write `full` on no byte is taken; 0 stands for none.
#[derive(Drop)]
pub struct FrailWriter {
    pub taken: Vec<u8>,
    pub writes: u64,
    pub flushes: u64,
    pub bad_write: u64,
    pub bad_flush: u64,
    pub full: u64,
}

pub fn writer(alloc: Global, bad_write: u64, bad_flush: u64, full: u64) -> FrailWriter {
    FrailWriter {
        taken: Vec::new(alloc),
        writes: 0,
        flushes: 0,
        bad_write,
        bad_flush,
        full,
    }
}

impl Write for FrailWriter {
    fn write(&mut self, buf: &[u8]) -> io::Result<usize> {
        self.writes = self.writes.saturating_add(1);
        if self.writes == self.bad_write {
            return Err(io::Error::from(ErrorKind::BrokenPipe));
        }
        if buf.is_empty() || (self.full != 0 && self.writes >= self.full) {
            return Ok(0);
        }
        self.taken.push(buf[0])?;
        Ok(1)
    }

    fn flush(&mut self) -> io::Result<()> {
        self.flushes = self.flushes.saturating_add(1);
        if self.flushes == self.bad_flush {
            return Err(io::Error::from(ErrorKind::BrokenPipe));
        }
        Ok(())
    }
}
