//! The program `draw`: how it ends if a write, a flush or an allocation fails. What it writes for
//! other arguments is tested by `tests/draw.sh`.

use super::programs::{Program, check_flush, check_memory, check_writes, strings};
use crate::comparing::holds;
use draw_core::run::{report, run};
use std::alloc::{AllocError, Allocator, Global};
use std::io::Write;
use std::test::Fail;

// The program with its arguments.
#[derive(Drop)]
struct Draw {
    arguments: Vec<String>,
}

impl Program for Draw {
    fn run<A: Allocator, W: Write>(&self, alloc: A, out: &mut W, err: &mut Vec<u8>) -> u8 {
        report(run(alloc, &self.arguments, out), err)
    }
}

// The program with the arguments of a line, separated by spaces.
fn draw_of(alloc: Global, line: &str) -> Result<Draw, AllocError> {
    let words = line.split_whitespace().collect::<Vec<&str>>(alloc)?;
    Ok(Draw {
        arguments: strings(alloc, &words)?,
    })
}

// The longest command line, and its text.
const LONGEST: &str =
    "chacha20 00000000000000000000000000000000000000000000000000000000000000000000000000000000 buffered 0 u8 u8:10..=12 u16 bool";

const LONGEST_TEXT: &str = "118\n12\n44512\nfalse\n";

#[test]
fn failures_of_writers(rt: HostRuntime) -> Result<(), Fail> {
    let program = draw_of(rt.alloc(), LONGEST)?;
    check_writes(&rt, rt.alloc(), &program, LONGEST_TEXT, 4);
    check_flush(&rt, rt.alloc(), &program, LONGEST_TEXT, 4);
    Ok(())
}

// A command line whose items and text grow several times.
const FORTY_ITEMS: &str =
    "items: 0 1 2 3 4 5 6 7 8 9 10 11 12 13 14 15 16 17 18 19 20 21 22 23 24 25 26 27 28 29 30 31 32 33 34 35 36 37 38 39\n";

// Command lines, and for each the status, the text, and the least number of allocations. The first
// four arguments are read without allocating.
const WITH_MEMORY: [(&str, u8, &str, u64); 5] = [
    (LONGEST, 0, LONGEST_TEXT, 1),
    ("wyrand d29b42879be2895f plain 40", 0, FORTY_ITEMS, 10),
    ("wyrand d29b42879be2895f plain 0 u8 u9", 2, "", 1),
    ("wyrand d29b42879be2895f plain 1001 u8", 2, "", 0),
    ("", 2, "", 0),
];

#[test]
fn memory(rt: HostRuntime) -> Result<(), Fail> {
    for (line, status, out, least) in WITH_MEMORY {
        let program = draw_of(rt.alloc(), line)?;
        let requests = check_memory(&rt, rt.alloc(), &program, status, out, 3)?;
        holds(
            &rt,
            requests >= least && (requests > 0) == (least > 0),
            &requests,
        );
    }
    Ok(())
}
