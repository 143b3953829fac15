//! `read_to_end`, where each allocation in turn fails.

use crate::comparing::equal;
use crate::draw_helpers::buffered_bytes;
use nanorand::{BufferedRng, Rng};
use std::alloc::{AllocError, Allocator};
use std::process::Abort;
use std::test::Fail;
use test_support::{Refusing, Steps};

// The call returns this outcome, and leaves these items and this many buffered bytes.
fn reads<G: Rng<OUTPUT>, const OUTPUT: usize, A: Allocator>(
    rt: &impl Abort,
    rng: &mut BufferedRng<G, OUTPUT>,
    out: &mut Vec<u8, A>,
    outcome: Result<usize, AllocError>,
    (items, buffered): (&[u8], usize),
) {
    equal(rt, rng.read_to_end(out), outcome);
    equal(rt, out.as_slice(), items);
    equal(rt, rng.buffered(), buffered);
}

// The bytes 5, 6 and 7 of a buffer are read to the end of a vector of sevens. The first allocation
// fails: neither changes, and the next call succeeds.
fn reads_after_a_refusal<A: Allocator>(
    rt: &impl Abort,
    out: &mut Vec<u8, A>,
    sevens: &[u8],
    all: &[u8],
) {
    let room = out.capacity();
    let mut rng = BufferedRng::new(Steps::new());
    let _ = buffered_bytes::<5, _, 8>(&mut rng);
    reads(rt, &mut rng, out, Err(AllocError), (sevens, 3));
    equal(rt, out.capacity(), room);
    reads(rt, &mut rng, out, Ok(3), (all, 0));
    // Nothing is left to append.
    reads(rt, &mut rng, out, Ok(0), (all, 0));
}

// The vector has `count` sevens, and no room for more. There is no second allocation.
fn is_refused_once(rt: &(impl Abort + AllocGlobal), count: usize) -> Result<(), AllocError> {
    let sevens = vec![in rt.alloc(); 7; count]?;
    let mut all = sevens.clone()?;
    all.extend_from_slice(&[5, 6, 7])?;
    let heap = Refusing::nth(rt.alloc(), u64::from(count > 0).wrapping_add(1));
    let mut out = Vec::with_capacity(&heap, count)?;
    out.extend_from_slice(&sevens)?;
    reads_after_a_refusal(rt, &mut out, &sevens, &all);
    Ok(())
}

#[test]
fn read_to_end(rt: HostRuntime) -> Result<(), Fail> {
    for count in [0, 2, 1000, 70_000] {
        is_refused_once(&rt, count)?;
    }
    Ok(())
}

// With enough spare capacity, nothing is allocated, so nothing can fail.
#[test]
fn read_to_end_without_allocation(rt: HostRuntime) -> Result<(), Fail> {
    let heap = Refusing::from_nth(rt.alloc(), 2);
    let mut out = Vec::with_capacity(&heap, 3)?;
    let mut rng = BufferedRng::new(Steps::new());
    let _ = buffered_bytes::<5, _, 8>(&mut rng);
    reads(&rt, &mut rng, &mut out, Ok(3), (&[5, 6, 7], 0));
    equal(&rt, heap.requests(), 1);
    Ok(())
}
