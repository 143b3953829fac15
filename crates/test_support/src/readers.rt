//! A reader of known bytes, which delivers them in pieces, ends early, or fails; and the kinds of
//! errors.

use std::io;
use std::io::{ErrorKind, Read};

/// Every kind of error that a reader or a writer can have.
pub const ERROR_KINDS: [ErrorKind; 42] = [
    ErrorKind::NotFound,
    ErrorKind::PermissionDenied,
    ErrorKind::ConnectionRefused,
    ErrorKind::ConnectionReset,
    ErrorKind::HostUnreachable,
    ErrorKind::NetworkUnreachable,
    ErrorKind::ConnectionAborted,
    ErrorKind::NotConnected,
    ErrorKind::AddrInUse,
    ErrorKind::AddrNotAvailable,
    ErrorKind::NetworkDown,
    ErrorKind::BrokenPipe,
    ErrorKind::AlreadyExists,
    ErrorKind::WouldBlock,
    ErrorKind::NotADirectory,
    ErrorKind::IsADirectory,
    ErrorKind::DirectoryNotEmpty,
    ErrorKind::ReadOnlyFilesystem,
    ErrorKind::FilesystemLoop,
    ErrorKind::StaleNetworkFileHandle,
    ErrorKind::InvalidInput,
    ErrorKind::InvalidData,
    ErrorKind::TimedOut,
    ErrorKind::WriteZero,
    ErrorKind::StorageFull,
    ErrorKind::NotSeekable,
    ErrorKind::QuotaExceeded,
    ErrorKind::FileTooLarge,
    ErrorKind::ResourceBusy,
    ErrorKind::ExecutableFileBusy,
    ErrorKind::Deadlock,
    ErrorKind::CrossesDevices,
    ErrorKind::TooManyLinks,
    ErrorKind::InvalidFilename,
    ErrorKind::ArgumentListTooLong,
    ErrorKind::Interrupted,
    ErrorKind::Unsupported,
    ErrorKind::UnexpectedEof,
    ErrorKind::OutOfMemory,
    ErrorKind::InProgress,
    ErrorKind::Other,
    ErrorKind::Uncategorized,
];

/// A reader that delivers its bytes, at most `piece` of them for each read, and then 0 bytes.
///
/// `fault` is the number of a read that fails, counted from 0, and the kind of its error.
#[derive(Drop)]
pub struct Pieces<'a> {
    bytes: &'a [u8],
    piece: usize,
    fault: Option<(u64, ErrorKind)>,
    reads: u64,
}

impl<'a> Pieces<'a> {
    /// Creates a reader of these bytes that delivers at most `piece` of them for each read.
    pub fn of(bytes: &'a [u8], piece: usize) -> Pieces<'a> {
        Pieces {
            bytes,
            piece,
            fault: None,
            reads: 0,
        }
    }

    /// Creates a reader of these bytes whose read number `read`, counted from 0, fails.
    pub fn failing(bytes: &'a [u8], piece: usize, read: u64, kind: ErrorKind) -> Pieces<'a> {
        Pieces {
            bytes,
            piece,
            fault: Some((read, kind)),
            reads: 0,
        }
    }

    /// Returns the number of bytes that have not been read yet.
    pub fn left(&self) -> usize {
        self.bytes.len()
    }

    /// Returns the number of reads so far.
    pub fn reads(&self) -> u64 {
        self.reads
    }
}

impl Read for Pieces<'_> {
    fn read(&mut self, buf: &mut [u8]) -> io::Result<usize> {
        let read = self.reads;
        self.reads = read.wrapping_add(1);
        if let Some((number, kind)) = self.fault {
            if number == read {
                return Err(io::Error::from(kind));
            }
        }
        let count = self.piece.min(self.bytes.len()).min(buf.len());
        let (given, left) = self.bytes.split_at(count);
        buf[..count].copy_from_slice(given);
        self.bytes = left;
        Ok(count)
    }
}
