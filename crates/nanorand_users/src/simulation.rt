//! Simulation replay: a run can be repeated exactly, from an equal generator, from a copy or from a
//! seed, and it can be stopped and resumed.
//!
//! A simulation is a list of calls of a generator, and the items that its shuffles permute.
ghost use Rattle.std.specs.Prelude.{◌≡◌, ◌≤◌, length, OnOk, OnErr, IfOk, IsOk};
ghost use Rattle.nanorand.specs.generators.WyRand.{wyrand_requests};
ghost use Rattle.nanorand_replay.specs.replay.Replay.{replayed};

use nanorand::laws::replays_join;
use nanorand::replay::{Answer, Call, replay};
use nanorand::{Rng, WyRand};
use std::alloc::AllocError;

/// Runs the calls on two equal generators with equal items. The answers, the items and the
/// generators are equal afterwards.
pub fn replay_twice<G: Rng<OUTPUT>, const OUTPUT: usize>(
    first: &mut G,
    second: &mut G,
    calls: &[Call],
    first_items: &mut [u64],
    second_items: &mut [u64],
    first_answers: &mut [Answer],
    second_answers: &mut [Answer],
)
    requires states { second.old ≡ first.old }
    requires items { second_items.old ≡ first_items.old }
    requires first_room { length first_answers.old ≡ length calls.now }
    requires second_room { length second_answers.old ≡ length calls.now }
    ensures answers { let run = replayed G.requests first.old first_items.old calls.now in
        first_answers.new ≡ run.answers }
    ensures items { let run = replayed G.requests first.old first_items.old calls.now in
        first_items.new ≡ run.items }
    ensures state { first.new ≡ (replayed G.requests first.old first_items.old calls.now).state }
    ensures same_answers { second_answers.new ≡ first_answers.new }
    ensures same_items { second_items.new ≡ first_items.new }
    ensures same_state { second.new ≡ first.new }
{
    replay(first, calls, first_items, first_answers);
    replay(second, calls, second_items, second_answers);
}

/// Runs the calls on the generator and on a copy made before, and returns the copy as its run left
/// it.
///
/// Precondition: a clone equals its original, as it does for the library's generators. If `clone`
/// fails (a user's generator may allocate), nothing runs and nothing changes.
pub fn replay_copy<G: Rng<OUTPUT> + Drop, const OUTPUT: usize>(
    rng: &mut G,
    calls: &[Call],
    first_items: &mut [u64],
    second_items: &mut [u64],
    first_answers: &mut [Answer],
    second_answers: &mut [Answer],
) -> Result<G, AllocError>
    requires equal { (copy : G) → G.is_clone rng.old copy → copy ≡ rng.old }
    requires items { second_items.old ≡ first_items.old }
    requires first_room { length first_answers.old ≡ length calls.now }
    requires second_room { length second_answers.old ≡ length calls.now }
    ensures answers { let run = replayed G.requests rng.old first_items.old calls.now in
        OnOk result (first_answers.new ≡ run.answers) }
    ensures items { let run = replayed G.requests rng.old first_items.old calls.now in
        OnOk result (first_items.new ≡ run.items) }
    ensures state { let run = replayed G.requests rng.old first_items.old calls.now in
        OnOk result (rng.new ≡ run.state) }
    ensures same_answers { OnOk result (second_answers.new ≡ first_answers.new) }
    ensures same_items { OnOk result (second_items.new ≡ first_items.new) }
    ensures same_state { IfOk result (λ copy. copy ≡ rng.new) }
    ensures cause { G.is_infallible rng.old → IsOk result }
    ensures unchanged { OnErr result (
        (first_answers.new ≡ first_answers.old) × (second_answers.new ≡ second_answers.old)
        × (first_items.new ≡ first_items.old) × (second_items.new ≡ second_items.old)
        × (rng.new ≡ rng.old)) }
{
    let mut copy = rng.clone()?;
    replay_twice(
        rng,
        &mut copy,
        calls,
        first_items,
        second_items,
        first_answers,
        second_answers,
    );
    Ok(copy)
}

/// Runs the calls twice from one seed. Both runs return the same answers and items.
pub fn replay_seed(
    seed: u64,
    calls: &[Call],
    first_items: &mut [u64],
    second_items: &mut [u64],
    first_answers: &mut [Answer],
    second_answers: &mut [Answer],
)
    requires items { second_items.old ≡ first_items.old }
    requires first_room { length first_answers.old ≡ length calls.now }
    requires second_room { length second_answers.old ≡ length calls.now }
    ensures answers { let run = replayed wyrand_requests seed first_items.old calls.now in
        first_answers.new ≡ run.answers }
    ensures items { let run = replayed wyrand_requests seed first_items.old calls.now in
        first_items.new ≡ run.items }
    ensures same_answers { second_answers.new ≡ first_answers.new }
    ensures same_items { second_items.new ≡ first_items.new }
{
    replay_twice(
        &mut WyRand::new_seed(seed),
        &mut WyRand::new_seed(seed),
        calls,
        first_items,
        second_items,
        first_answers,
        second_answers,
    );
}

/// Runs the calls before index `place`, stops, and runs the rest from the state and the items that
/// the first part left. Wherever it stops, the answers, the items and the generator are those of
/// one whole run.
pub fn replay_in_two<G: Rng<OUTPUT>, const OUTPUT: usize>(
    rng: &mut G,
    calls: &[Call],
    place: usize,
    items: &mut [u64],
    answers: &mut [Answer],
)
    requires place { place ≤ length calls.now }
    requires room { length answers.old ≡ length calls.now }
    ensures answers { answers.new ≡ (replayed G.requests rng.old items.old calls.now).answers }
    ensures items { items.new ≡ (replayed G.requests rng.old items.old calls.now).items }
    ensures state { rng.new ≡ (replayed G.requests rng.old items.old calls.now).state }
{
    replays_join::<G, OUTPUT>();
    let (done, left) = answers.split_at_mut(place);
    replay(rng, &calls[..place], items, done);
    replay(rng, &calls[place..], items, left);
}
