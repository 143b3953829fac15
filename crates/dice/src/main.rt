//! Throws a die ten times.
#![tactic(auto)]

ghost use Rattle.std.specs.Prelude.{◌≡◌, ◌≤◌, IfOk, IfErr};

use nanorand::choices::between;
use nanorand::{RangeError, WyRand};
use std::io;

/// Draws a number from 1 to 6.
fn throw(rng: &mut WyRand) -> Result<u8, RangeError>
    ensures face { IfOk result (λ pips. (1 ≤ pips) × (pips ≤ 6)) }
    ensures refusal { IfErr result (λ refusal. refusal ≡ RangeError.Exhausted) }
{
    between(rng, 1, 6)
}

fn main(rt: HostRuntime) -> io::Result<()> {
    let mut rng = WyRand::seed_from_u64(2026);
    for _ in 0..10 {
        match throw(&mut rng) {
            Ok(pips) => println!(rt; "{pips}")?,
            Err(refusal) => println!(rt; "{refusal}")?,
        }
    }
    Ok(())
}
