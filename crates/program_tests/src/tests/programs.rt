//! What is tested in the same way for `draw` and `lots`: a run in pieces, and each write, flush and
//! allocation that fails.

use super::writers::Pieces;
use crate::comparing::{equal_at, holds};
use linked_list_allocator::LocalHeap;
use std::alloc::{AllocError, Allocator, Global};
use std::io::{ErrorKind, Write};
use std::process::Abort;
use std::test::Fail;
use test_support::{ERROR_KINDS, Refusing};

/// A program with its arguments and its input.
pub trait Program {
    /// Runs the program. Returns its exit status, and appends to `err` what it writes to standard
    /// error.
    fn run<A: Allocator, W: Write>(&self, alloc: A, out: &mut W, err: &mut Vec<u8>) -> u8;
}

/// Returns the arguments of a command line.
pub fn strings(alloc: Global, arguments: &[&str]) -> Result<Vec<String>, AllocError> {
    let mut strings = Vec::new(alloc);
    for argument in arguments {
        strings.push(String::from_str(alloc, argument)?)?;
    }
    Ok(strings)
}

/// Fails each write of the text in turn, with each kind of error. After the failure, the program
/// neither writes nor flushes, and ends with the status `failed`. A write that is interrupted is
/// tried again.
pub fn check_writes(
    rt: &impl Abort,
    alloc: Global,
    program: &impl Program,
    text: &str,
    failed: u8,
) {
    let length = text.len() as u64;
    for number in 0..length {
        for error in ERROR_KINDS {
            let (status, kept, flushes) = if error == ErrorKind::Interrupted {
                (0, length, 1)
            } else {
                (failed, number, 0)
            };
            let mut out = Pieces::failing(alloc, 1, number, error);
            let ended = program.run(alloc, &mut out, &mut Vec::new(alloc));
            equal_at(rt, ended, status, &number);
            let counted = [out.kept.len() as u64, out.writes, out.flushes];
            equal_at(rt, counted, [kept, kept.wrapping_add(1), flushes], &number);
            holds(
                rt,
                text.as_bytes().starts_with(out.kept.as_slice()),
                &number,
            );
        }
    }
}

/// Fails only the flush, with each kind of error. The whole text was written before it, in as few
/// writes as the pieces of the writer allow. An interrupted flush counts as failed, and so does an
/// error of the writer that says that memory ran out. A writer that accepts no bytes fails before
/// the flush.
pub fn check_flush(rt: &impl Abort, alloc: Global, program: &impl Program, text: &str, failed: u8) {
    for error in ERROR_KINDS {
        for (piece, kept, writes, flushes) in [
            (0, "", 1, 0),
            (1, text, text.len(), 1),
            (7, text, text.len().div_ceil(7), 1),
            (usize::MAX, text, 1, 1),
        ] {
            let mut out = Pieces::unflushed(alloc, piece, error);
            let ended = program.run(alloc, &mut out, &mut Vec::new(alloc));
            equal_at(rt, ended, failed, &piece);
            equal_at(rt, out.kept.as_slice(), kept.as_bytes(), &piece);
            equal_at(
                rt,
                [out.writes, out.flushes],
                [writes as u64, flushes],
                &piece,
            );
        }
    }
}

// The number of bytes of the heap for these runs, which is more than any of them uses.
const ROOM: usize = 1 << 22;

// A run on a heap where allocation `number` fails writes nothing and ends with the status
// `no_memory`. If the run makes fewer allocations, it ends with this status and text.
fn check_on_heap(
    rt: &impl Abort,
    alloc: Global,
    program: &impl Program,
    heap: &Refusing<&LocalHeap>,
    number: u64,
    (status, text): (u8, &str),
    no_memory: u8,
) {
    let mut out = Pieces::honest(alloc, usize::MAX);
    let ended = program.run(heap, &mut out, &mut Vec::new(alloc));
    if heap.requests() < number {
        equal_at(rt, ended, status, &number);
        equal_at(rt, out.kept.as_slice(), text.as_bytes(), &number);
    } else {
        equal_at(rt, ended, no_memory, &number);
        equal_at(rt, [out.writes, out.flushes], [0, 0], &number);
    }
}

/// Fails the first allocation, alone and with all later ones, then the second, and so on, until a
/// run succeeds without a failure and ends with this status and text. After each run all memory is
/// free again. Returns the number of allocations of a run.
pub fn check_memory(
    rt: &impl Abort,
    alloc: Global,
    program: &impl Program,
    status: u8,
    text: &str,
    no_memory: u8,
) -> Result<u64, Fail> {
    let room = LocalHeap::new(alloc, ROOM)?;
    for number in 1..1000u64 {
        let all = Refusing::from_nth(&room, number);
        check_on_heap(rt, alloc, program, &all, number, (status, text), no_memory);
        let one = Refusing::nth(&room, number);
        check_on_heap(rt, alloc, program, &one, number, (status, text), no_memory);
        equal_at(rt, room.used(), 0, &number);
        if one.requests() < number {
            return Ok(number - 1);
        }
    }
    Err(Fail::from("each run met a refusal"))
}
