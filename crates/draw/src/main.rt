//! Draws numbers from a seed: `draw GENERATOR SEED MODE COUNT REQUEST...`.
//!
//! - GENERATOR is `wyrand`, `pcg64`, `chacha8`, `chacha12` or `chacha20`.
//! - SEED has two hexadecimal digits for each byte: 8 bytes for `wyrand`, 16 for `pcg64`, 40 for
//!   ChaCha.
//! - MODE is `plain` or `buffered`.
//! - COUNT, at most 1000, is the number of items 0, 1, .. for shuffles.
//! - A REQUEST is a type such as `u8`, a range of a type such as `u8:1..=6`, or `shuffle`.
//!
//! It prints one line for each request, and then a line with the items if there are any. The exit
//! status is 0 on success, 2 if an argument cannot be read, 3 if memory runs out, and 4 if a write
//! failed.
//!
//! Do not use it to generate keys or passwords: WyRand and Pcg64 are not cryptographically secure,
//! and other users may see the arguments of a process.
#![tactic(auto)]

use draw_core::DrawError;
use draw_core::run::{report, run};
use std::env;
use std::process::ExitCode;

fn main(rt: HostRuntime) -> ExitCode {
    let alloc = rt.alloc();
    let outcome = match env::args(&rt) {
        Ok(args) => match args.skip(1).collect::<Vec<String>>(alloc) {
            Ok(arguments) => run(alloc, arguments.as_slice(), &mut rt.stdout()),
            Err(_) => Err(DrawError::Memory),
        },
        // A failure to fetch the arguments is reported as out of memory.
        Err(_) => Err(DrawError::Memory),
    };
    ExitCode::from(report(outcome, &mut rt.stderr()))
}
