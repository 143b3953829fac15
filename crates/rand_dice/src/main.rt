//! Throws a die ten times, by the kit's `rand` with a `Pcg64`.
#![tactic(auto)]

ghost use Rattle.std.specs.Prelude.{◌≤◌};

use nanorand::Pcg64;
use nanorand_rand::Core;
use rand::distr::Distribution;
use rand::distr::uniform::Uniform;
use std::io;

/// Draws a number from 1 to 6.
fn throw(rng: &mut Core<Pcg64, 8>) -> u8
    ensures { (1 ≤ result) × (result ≤ 6) }
{
    Uniform::new_inclusive(1, 6).unwrap().sample(rng)
}

fn main(rt: HostRuntime) -> io::Result<()> {
    let mut rng = Core(Pcg64::seed_from_u64(2026));
    for _ in 0..10 {
        println!(rt; "{}", throw(&mut rng))?;
    }
    Ok(())
}
