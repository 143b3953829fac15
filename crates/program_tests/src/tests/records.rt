//! The records of the program `lots`: how writing and checking one ends. What a check accepts is
//! tested in Rust.

use super::programs::{Program, check_flush, check_memory, check_writes};
use super::readers::Feed;
use super::writers::Pieces;
use crate::comparing::{equal, equal_at, holds};
use lots_core::arguments::{Count, Request};
use lots_record::program::{check_record, report_check, write_record};
use std::alloc::Allocator;
use std::io::Write;
use std::test::Fail;

const SEED: &str = "4 1 6 3 3 2 5 6 1 4 2 6 5 3 1 1 6 2 4 5";

const NAMES: &str =
    "Ada\nBarbara\nChidi\nDmitri\nElif\nFarid\nGrace\nHedy\nInes\nJun\nKatherine\nLise\n";

// The record of three of the names. The sums are those of `sha256sum`.
const RECORD: &str = r#"nanorand public draw 2
announcement SHA-256: none
seed: "4 1 6 3 3 2 5 6 1 4 2 6 5 3 1 1 6 2 4 5"
list SHA-256: 32230fec7f4d73fc1dc4888e4bd9becc094a248cb2098b991ab26c2ef227e860
entrants: 12
drawn: 3
result SHA-256: d44df65b613f78f8bb637295ecfbaf57109d9ec26487514c036dc826f6757939
1: "Katherine"
2: "Jun"
3: "Chidi"
end of the record
"#;

const AGREES: &str = "the record agrees with the list; no announcement was compared\n";

// The program writes the record.
#[derive(Drop)]
struct Writes;

impl Program for Writes {
    fn run<A: Allocator, W: Write>(&self, alloc: A, out: &mut W, err: &mut Vec<u8>) -> u8 {
        let request = Request {
            seed: SEED,
            count: Count::Of(3),
        };
        let mut input = Feed::honest(NAMES.as_bytes(), usize::MAX);
        report_check(write_record(alloc, &request, None, &mut input, out), err)
    }
}

// The program checks the record.
#[derive(Drop)]
struct Checks;

impl Program for Checks {
    fn run<A: Allocator, W: Write>(&self, alloc: A, out: &mut W, err: &mut Vec<u8>) -> u8 {
        let mut input = Feed::honest(NAMES.as_bytes(), usize::MAX);
        report_check(
            check_record(alloc, RECORD.as_bytes(), None, &mut input, out),
            err,
        )
    }
}

#[test]
fn failures_of_writers(rt: HostRuntime) -> Result<(), Fail> {
    check_writes(&rt, rt.alloc(), &Writes, RECORD, 7);
    check_flush(&rt, rt.alloc(), &Writes, RECORD, 7);
    check_writes(&rt, rt.alloc(), &Checks, AGREES, 7);
    check_flush(&rt, rt.alloc(), &Checks, AGREES, 7);
    Ok(())
}

#[test]
fn memory(rt: HostRuntime) -> Result<(), Fail> {
    let writing = check_memory(&rt, rt.alloc(), &Writes, 0, RECORD, 5)?;
    let checking = check_memory(&rt, rt.alloc(), &Checks, 0, AGREES, 5)?;
    holds(&rt, writing > 5 && checking > writing, &checking);
    Ok(())
}

#[test]
fn read_in_pieces(rt: HostRuntime) -> Result<(), Fail> {
    for piece in [1, 7, 4096] {
        let mut input = Feed::honest(NAMES.as_bytes(), piece);
        let mut out = Pieces::honest(rt.alloc(), 3);
        let outcome = check_record(rt.alloc(), RECORD.as_bytes(), None, &mut input, &mut out);
        equal_at(&rt, outcome, Ok(()), &piece);
        equal(&rt, out.kept.as_slice(), AGREES.as_bytes());
    }
    Ok(())
}
