//! Readers and writers that fail where a test wants it.

use arrayvec::ArrayVec;
use std::alloc::Global;
use std::io;
use std::io::{ErrorKind, Read, Write};

/// Gives at most `piece` octets a call, and fails at call number `fails_at`, counted from 1.
#[derive(Drop)]
pub struct Pieces<'a> {
    pub rest: &'a [u8],
    pub piece: usize,
    pub calls: u64,
    pub fails_at: u64,
}

impl Read for Pieces<'_> {
    fn read(&mut self, buf: &mut [u8]) -> io::Result<usize> {
        self.calls = self.calls.saturating_add(1);
        if self.calls == self.fails_at {
            return Err(io::Error::from(ErrorKind::Other));
        }
        let most = self.piece.min(buf.len());
        let mut front = &self.rest[..most.min(self.rest.len())];
        let count = front.read(buf)?;
        self.rest = &self.rest[count..];
        Ok(count)
    }
}

/// Gives the same octets `left` times, once each call, and then the end.
#[derive(Drop)]
pub struct Repeated<'a> {
    pub octets: &'a [u8],
    pub left: u64,
    pub calls: u64,
}

impl Read for Repeated<'_> {
    fn read(&mut self, buf: &mut [u8]) -> io::Result<usize> {
        self.calls = self.calls.saturating_add(1);
        if self.left == 0 {
            return Ok(0);
        }
        self.left -= 1;
        let mut octets = self.octets;
        octets.read(buf)
    }
}

/// Takes `room` octets in all, and then fails.
#[derive(Drop)]
pub struct Narrow {
    pub out: Vec<u8>,
    pub room: usize,
    pub fails_flush: bool,
    pub flushes: u64,
}

impl Narrow {
    /// Took nothing yet.
    pub fn new(alloc: Global, room: usize, fails_flush: bool) -> Self {
        Narrow {
            out: Vec::new(alloc),
            room,
            fails_flush,
            flushes: 0,
        }
    }
}

impl Write for Narrow {
    fn write(&mut self, buf: &[u8]) -> io::Result<usize> {
        let most = self.room.min(buf.len());
        if most == 0 {
            return Err(io::Error::from(ErrorKind::Other));
        }
        self.out.extend_from_slice(&buf[..most])?;
        self.room -= most;
        Ok(most)
    }

    fn flush(&mut self) -> io::Result<()> {
        self.flushes = self.flushes.saturating_add(1);
        if self.fails_flush {
            return Err(io::Error::from(ErrorKind::Other));
        }
        Ok(())
    }
}

/// Fails at write number `fails_at`, counted from 1, and else takes everything.
#[derive(Drop)]
pub struct Faltering {
    pub octets: usize,
    pub writes: u64,
    pub fails_at: u64,
}

impl Write for Faltering {
    fn write(&mut self, buf: &[u8]) -> io::Result<usize> {
        self.writes = self.writes.saturating_add(1);
        if self.writes == self.fails_at {
            return Err(io::Error::from(ErrorKind::Other));
        }
        self.octets = self.octets.saturating_add(buf.len());
        Ok(buf.len())
    }

    fn flush(&mut self) -> io::Result<()> {
        Ok(())
    }
}

/// Takes what it has room for, and asks for no memory.
#[derive(Drop)]
pub struct Fixed {
    pub out: ArrayVec<u8, 256>,
}

impl Fixed {
    /// Nothing was taken.
    pub fn new() -> Self {
        Fixed {
            out: ArrayVec::new(),
        }
    }
}

impl Write for Fixed {
    fn write(&mut self, buf: &[u8]) -> io::Result<usize> {
        let count = buf.len().min(self.out.remaining_capacity());
        for octet in &buf[..count] {
            if self.out.try_push(*octet).is_err() {
                return Err(io::Error::from(ErrorKind::Other));
            }
        }
        Ok(count)
    }

    fn flush(&mut self) -> io::Result<()> {
        Ok(())
    }
}

/// Takes everything, and counts the calls. It asks for no memory.
#[derive(Clone, Copy, Debug, PartialEq, Eq)]
pub struct Counted {
    pub octets: u64,
    pub writes: u64,
    /// Those of the writes that had nothing to write.
    pub empty_writes: u64,
    pub flushes: u64,
}

impl Counted {
    /// Nothing was called.
    pub fn new() -> Self {
        Counted {
            octets: 0,
            writes: 0,
            empty_writes: 0,
            flushes: 0,
        }
    }
}

impl Write for Counted {
    fn write(&mut self, buf: &[u8]) -> io::Result<usize> {
        self.octets = self.octets.saturating_add(buf.len() as u64);
        self.writes = self.writes.saturating_add(1);
        if buf.is_empty() {
            self.empty_writes = self.empty_writes.saturating_add(1);
        }
        Ok(buf.len())
    }

    fn flush(&mut self) -> io::Result<()> {
        self.flushes = self.flushes.saturating_add(1);
        Ok(())
    }
}
