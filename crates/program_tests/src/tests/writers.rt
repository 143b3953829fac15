//! A writer that accepts a few bytes at a time, fails, and counts its calls.

use std::alloc::Global;
use std::io;
use std::io::{ErrorKind, Write};

/// A writer that accepts at most `piece` bytes at a time, keeps them, and counts its calls. Write
/// number `failing`, counted from 0, fails with this error, and so does each flush unless
/// `can_flush` is set.
#[derive(Drop)]
pub struct Pieces {
    pub kept: Vec<u8>,
    pub writes: u64,
    pub flushes: u64,
    piece: usize,
    failing: u64,
    error: ErrorKind,
    can_flush: bool,
}

const NEVER: u64 = u64::MAX;

impl Pieces {
    /// Creates a writer that accepts at most `piece` bytes at a time and never fails.
    pub fn honest(alloc: Global, piece: usize) -> Pieces {
        Pieces::failing(alloc, piece, NEVER, ErrorKind::BrokenPipe)
    }

    /// Creates a writer whose write number `failing`, counted from 0, fails with this error.
    pub fn failing(alloc: Global, piece: usize, failing: u64, error: ErrorKind) -> Pieces {
        Pieces {
            kept: Vec::new(alloc),
            writes: 0,
            flushes: 0,
            piece,
            failing,
            error,
            can_flush: true,
        }
    }

    /// Creates a writer that accepts at most `piece` bytes at a time and fails at each flush.
    pub fn unflushed(alloc: Global, piece: usize, error: ErrorKind) -> Pieces {
        let mut pieces = Pieces::failing(alloc, piece, NEVER, error);
        pieces.can_flush = false;
        pieces
    }
}

impl Write for Pieces {
    fn write(&mut self, buf: &[u8]) -> io::Result<usize> {
        let write = self.writes;
        self.writes = write.wrapping_add(1);
        let count = self.piece.min(buf.len());
        if write == self.failing || self.kept.extend_from_slice(&buf[..count]).is_err() {
            return Err(io::Error::from(self.error));
        }
        Ok(count)
    }

    fn flush(&mut self) -> io::Result<()> {
        self.flushes = self.flushes.wrapping_add(1);
        if self.can_flush {
            Ok(())
        } else {
            Err(io::Error::from(self.error))
        }
    }
}
