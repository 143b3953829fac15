//! The announcements of the program `lots`: how writing one ends. Which commands ask for one, and
//! which texts are the announcement of a draw, is tested in Rust.

use super::programs::{Program, check_flush, check_memory, check_writes};
use super::readers::Feed;
use lots_core::run::report;
use lots_record::announcement::Plan;
use lots_record::program::write_announcement;
use std::alloc::Allocator;
use std::io::Write;
use std::test::Fail;

const NAMES: &str =
    "Ada\nBarbara\nChidi\nDmitri\nElif\nFarid\nGrace\nHedy\nInes\nJun\nKatherine\nLise\n";

// The announcement of a draw of three winners and a reserve. The sum is that of `sha256sum`.
const ANNOUNCEMENT: &str = r#"nanorand announcement 1
occasion: "Summer raffle of the school"
list SHA-256: 32230fec7f4d73fc1dc4888e4bd9becc094a248cb2098b991ab26c2ef227e860
entrants: 12
winners: 3
reserves: 1
seed source: "20 throws of a die, in the hall"
seed form: "the numbers thrown, in order, with one space between them"
seed example: "6 6 1"
time: "Friday 4 December 2026, 12:00, Madrid"
end of the announcement
"#;

// The program writes the announcement.
#[derive(Drop)]
struct Announces;

impl Program for Announces {
    fn run<A: Allocator, W: Write>(&self, alloc: A, out: &mut W, err: &mut Vec<u8>) -> u8 {
        let plan = Plan {
            occasion: "Summer raffle of the school",
            winners: 3,
            reserves: 1,
            source: "20 throws of a die, in the hall",
            form: "the numbers thrown, in order, with one space between them",
            example: "6 6 1",
            time: "Friday 4 December 2026, 12:00, Madrid",
        };
        let mut input = Feed::honest(NAMES.as_bytes(), usize::MAX);
        report(write_announcement(alloc, &plan, &mut input, out), err)
    }
}

#[test]
fn failures_of_writers(rt: HostRuntime) -> Result<(), Fail> {
    check_writes(&rt, rt.alloc(), &Announces, ANNOUNCEMENT, 7);
    check_flush(&rt, rt.alloc(), &Announces, ANNOUNCEMENT, 7);
    Ok(())
}

#[test]
fn memory(rt: HostRuntime) -> Result<(), Fail> {
    check_memory(&rt, rt.alloc(), &Announces, 0, ANNOUNCEMENT, 5)?;
    Ok(())
}
