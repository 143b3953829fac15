//! Parallel streams: several workers draw from one stream, each from its own part. `nanorand::laws`
//! has the laws of parts: `parts_are_the_stream`, `parts_are_apart`, `all_parts_are_apart`,
//! `parts_as_one_loop` and `parts_in_any_order`.
ghost use Rattle.std.specs.Prelude.{◌≡◌, ◌↔◌, ◌+◌, ◌*◌, ◌^◌, ◌<◌, ◌≤◌, ℕ, length, slice_index, OnErr, OnOk, IsOk};
ghost use Rattle.nanorand_core.specs.values.Draws.{next_word};
ghost use Rattle.nanorand_core.specs.values.Runs.{is_in_run, quota};
ghost use Rattle.nanorand.specs.generators.Frequencies.{pcg64_words_that};
ghost use Rattle.nanorand.specs.generators.Parts.{after_draws, numbers_of_part};

use nanorand::laws::{fairness, parts_are_the_stream, pcg64_words_are_equally_frequent};
use nanorand::{Parts, PastPeriod};

/// Writes the part of one worker: `words.len()` words, after as many for each worker before it.
/// Returns `PastPeriod`, and writes nothing, if the part ends past the period.
pub fn part<G: Parts<OUTPUT> + Drop, const OUTPUT: usize>(
    stream: &G,
    index: u64,
    words: &mut [u64],
) -> Result<(), PastPeriod>
    ensures numbers { let draws = length words.old in
        OnOk result (words.new ≡ numbers_of_part G.requests draws stream.now index) }
    ensures stream { (j : ℕ) → j < length words.old → let draws = length words.old in
        OnOk result (slice_index words.new j
        ≡ next_word G.requests 64 (after_draws G.requests (index * draws + j) stream.now)) }
    ensures within { IsOk result ↔ ((index + 1) * length words.old ≤ G.period) }
    ensures stays { OnErr result (words.new ≡ words.old) }
{
    parts_are_the_stream::<G, OUTPUT>();
    let mut own = stream.part(index, words.len() as u64)?;
    own.fill(words);
    Ok(())
}

/// In the 2^126 words of a whole `Pcg64` stream, each number below a size has the same number of
/// words.
pub fn pcg64_stream_is_fair()
    ensures { (seed size k : ℕ) → seed < 2 ^ 128 → 1 ≤ size → size ≤ 2 ^ 64 → k < size
        → pcg64_words_that (2 ^ 126) seed (λ word. is_in_run 64 size word k)
        ≡ quota 64 size * 2 ^ 62 }
{
    fairness();
    pcg64_words_are_equally_frequent();
}
