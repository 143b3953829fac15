//! The program `lots`: how it ends if a read, a write or an allocation fails; and the draw of places.
//! What it writes for other arguments and lists is tested in Rust, and by `tests/lots.sh`.

use super::programs::{Program, check_flush, check_memory, check_writes, strings};
use super::readers::Feed;
use super::writers::Pieces;
use crate::comparing::{equal, equal_at, holds};
use lots_core::run::{report, run};
use lots_core::{LotsError, draw_places};
use std::alloc::{AllocError, Allocator, Global};
use std::io::{ErrorKind, Write};
use std::process::Abort;
use std::test::Fail;
use test_support::ERROR_KINDS;

// The program with its arguments and the list that it reads.
#[derive(Drop)]
struct Lots<'a> {
    arguments: Vec<String>,
    list: &'a [u8],
}

impl Program for Lots<'_> {
    fn run<A: Allocator, W: Write>(&self, alloc: A, out: &mut W, err: &mut Vec<u8>) -> u8 {
        let mut input = Feed::honest(self.list, usize::MAX);
        report(run(alloc, &self.arguments, &mut input, out), err)
    }
}

fn lots_of<'a>(alloc: Global, arguments: &[&str], list: &'a str) -> Result<Lots<'a>, AllocError> {
    Ok(Lots {
        arguments: strings(alloc, arguments)?,
        list: list.as_bytes(),
    })
}

// The seed of the example in docs/LOTS.md: 20 throws of a die.
const THROWS: &str = "4 1 6 3 3 2 5 6 1 4 2 6 5 3 1 1 6 2 4 5";

// The list of the example.
const NAMES: &str =
    "Ada\nBarbara\nChidi\nDmitri\nElif\nFarid\nGrace\nHedy\nInes\nJun\nKatherine\nLise\n";

// All entrants of the list, in the order in which they are drawn.
const DRAWN: &str =
    "Katherine\nJun\nChidi\nFarid\nGrace\nAda\nLise\nDmitri\nElif\nBarbara\nInes\nHedy\n";

#[test]
fn failures_of_writers(rt: HostRuntime) -> Result<(), Fail> {
    let program = lots_of(rt.alloc(), &[THROWS, "all"], NAMES)?;
    check_writes(&rt, rt.alloc(), &program, DRAWN, 7);
    check_flush(&rt, rt.alloc(), &program, DRAWN, 7);
    Ok(())
}

// Arguments, a list, the status, the text, and the least number of allocations: lists and a text
// grow several times. Arguments are read without allocating.
const WITH_MEMORY: [(&[&str], &str, u8, &str, u64); 4] = [
    (&[THROWS, "all"], NAMES, 0, DRAWN, 8),
    (&["seed", "9"], "Ada\nLise\n\n", 4, "", 1),
    (&["seed", "13"], NAMES, 3, "", 1),
    (&["seed", "+1"], NAMES, 2, "", 0),
];

#[test]
fn memory(rt: HostRuntime) -> Result<(), Fail> {
    for (arguments, list, status, text, least) in WITH_MEMORY {
        let program = lots_of(rt.alloc(), arguments, list)?;
        let requests = check_memory(&rt, rt.alloc(), &program, status, text, 5)?;
        holds(
            &rt,
            requests >= least && (requests > 0) == (least > 0),
            &requests,
        );
    }
    Ok(())
}

// A run of the example with this reader ends with this result. If it fails, the writer is not
// called.
fn check_read(
    rt: &impl Abort,
    alloc: Global,
    input: &mut Feed<'_>,
    wanted: Result<(), LotsError>,
) -> Result<(), Fail> {
    let arguments = strings(alloc, &[THROWS, "all"])?;
    let mut out = Pieces::honest(alloc, usize::MAX);
    equal(rt, run(alloc, &arguments, input, &mut out), wanted);
    let text = if wanted.is_ok() { DRAWN } else { "" };
    equal(rt, out.kept.as_slice(), text.as_bytes());
    equal(rt, out.flushes, u64::from(wanted.is_ok()));
    Ok(())
}

// A list that is read in pieces, and the same list if every second read is interrupted.
#[test]
fn interrupted_reads(rt: HostRuntime) -> Result<(), Fail> {
    for piece in [1, 7, 4096, usize::MAX] {
        let mut honest = Feed::honest(NAMES.as_bytes(), piece);
        check_read(&rt, rt.alloc(), &mut honest, Ok(()))?;
        let mut input = Feed::interrupted(NAMES.as_bytes(), piece);
        check_read(&rt, rt.alloc(), &mut input, Ok(()))?;
        let reads = honest.reads.wrapping_mul(2);
        equal_at(&rt, [input.reads, input.ends], [reads, 1], &piece);
    }
    Ok(())
}

// Each read fails in turn, including the one that would find the end, with each kind of error
// except an interruption, after which the program reads again. Nothing is read after the failure. A
// reader can run out of memory.
#[test]
fn failed_reads(rt: HostRuntime) -> Result<(), Fail> {
    for kind in ERROR_KINDS {
        if kind == ErrorKind::Interrupted {
            continue;
        }
        let error = if kind == ErrorKind::OutOfMemory {
            LotsError::Memory
        } else {
            LotsError::Read
        };
        for failing in 0..=NAMES.len() as u64 {
            let mut input = Feed::failing(NAMES.as_bytes(), 1, failing, kind);
            check_read(&rt, rt.alloc(), &mut input, Err(error))?;
            let reads = failing.wrapping_add(1);
            equal_at(&rt, [input.reads, input.ends], [reads, 0], &failing);
        }
    }
    Ok(())
}

// No list and no seed is known for which 128 words in a row are rejected.
#[test]
fn rejected_words(rt: HostRuntime) {
    let mut line = Vec::new(rt.alloc());
    equal(&rt, report(Err(LotsError::Exhausted), &mut line), 8);
    equal(
        &rt,
        line.as_slice(),
        b"lots: 128 words were rejected\n".as_slice(),
    );
}

// Seeds, and the order in which each draws the places of twelve. An empty seed is an error in the
// program, but not in the draw.
const ORDERS: [(&str, [usize; 12]); 3] = [
    (THROWS, [10, 9, 2, 5, 6, 0, 11, 3, 4, 1, 8, 7]),
    (
        "Zürich, 24. Dezember",
        [0, 9, 3, 2, 10, 8, 6, 7, 11, 4, 5, 1],
    ),
    ("", [3, 10, 7, 8, 0, 6, 4, 2, 11, 5, 9, 1]),
];

#[test]
fn places(rt: HostRuntime) {
    for (seed, order) in ORDERS {
        let mut places = [7; 12];
        equal_at(&rt, draw_places(seed, &mut places, 12), Ok(()), &seed);
        equal_at(&rt, places, order, &seed);
    }
}
