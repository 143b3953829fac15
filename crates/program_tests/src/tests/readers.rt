//! A reader that delivers a few bytes at a time, is interrupted, or fails.

use std::io;
use std::io::{ErrorKind, Read};

/// A reader of a list. It delivers at most `piece` bytes at a time, and counts its calls.
#[derive(Drop)]
pub struct Feed<'a> {
    rest: &'a [u8],
    pub reads: u64,
    // The number of reads that found no bytes left.
    pub ends: u64,
    piece: usize,
    // Whether each read with an even number, counted from 0, is interrupted.
    is_interrupted: bool,
    // The number of the read that fails, and its error.
    failing: u64,
    error: ErrorKind,
}

const NEVER: u64 = u64::MAX;

impl<'a> Feed<'a> {
    /// Creates a reader that delivers at most `piece` bytes at a time and never fails.
    pub fn honest(list: &'a [u8], piece: usize) -> Feed<'a> {
        Feed::failing(list, piece, NEVER, ErrorKind::Other)
    }

    /// Creates a reader whose read number `failing`, counted from 0, fails with this error.
    pub fn failing(list: &'a [u8], piece: usize, failing: u64, error: ErrorKind) -> Feed<'a> {
        Feed {
            rest: list,
            reads: 0,
            ends: 0,
            piece,
            is_interrupted: false,
            failing,
            error,
        }
    }

    /// Creates a reader whose every second read is interrupted, starting with the first.
    pub fn interrupted(list: &'a [u8], piece: usize) -> Feed<'a> {
        let mut feed = Feed::honest(list, piece);
        feed.is_interrupted = true;
        feed
    }
}

impl Read for Feed<'_> {
    fn read(&mut self, buf: &mut [u8]) -> io::Result<usize> {
        let read = self.reads;
        self.reads = read.wrapping_add(1);
        if self.is_interrupted && read % 2 == 0 {
            return Err(io::Error::from(ErrorKind::Interrupted));
        }
        if read == self.failing {
            return Err(io::Error::from(self.error));
        }
        if self.rest.is_empty() {
            self.ends = self.ends.wrapping_add(1);
        }
        let count = self.piece.min(self.rest.len()).min(buf.len());
        buf[..count].copy_from_slice(&self.rest[..count]);
        self.rest = &self.rest[count..];
        Ok(count)
    }
}
