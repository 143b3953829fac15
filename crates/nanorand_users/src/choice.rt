//! A load balancer: it sends each request to one of its servers, and a stronger server should get
//! more requests.
//!
//! Server i has the address `addresses[i]` and the strength `strengths[i]`.
ghost use Rattle.std.specs.Prelude.{◌≡◌, ◌^◌, ◌≤◌, ◌↔◌, length, slice_index, sum, Err, IfOk, IfErr, IsOkAnd};
ghost use Rattle.nanorand_core.specs.choices.Weighted.{choice_answer, choice_state};
ghost use Rattle.nanorand_core.specs.declared.choices.weighted.WeightError.TheVariants.{NoWeight, TooHeavy};
ghost use Rattle.nanorand_users.specs.Choice.{IsServerOf, WordsFollowStrengths};

use nanorand::choices::weighted::{WeightError, choose_weighted};
use nanorand::{Rng, laws};

/// Chooses the server of the next request by the strengths, and returns its address.
///
/// A server of strength 0 gets no request. The errors are those of `choose_weighted`.
pub fn server_for<G: Rng<OUTPUT>, const OUTPUT: usize>(
    rng: &mut G,
    addresses: &[u32],
    strengths: &[u64],
) -> Result<u32, WeightError>
    requires { length addresses.now ≡ length strengths.now }
    ensures server { let index = choice_answer G.requests strengths.now rng.old in
        IfOk result (λ address. IsOkAnd index (λ i. slice_index addresses.now i ≡ address)) }
    ensures strong { IfOk result (IsServerOf addresses.now strengths.now) }
    ensures refusal { let index = choice_answer G.requests strengths.now rng.old in
        IfErr result (λ refusal. index ≡ Err refusal) }
    ensures no_strength { (result ≡ Err NoWeight) ↔ (sum strengths.now ≡ 0) }
    ensures too_strong { (result ≡ Err TooHeavy) ↔ (2 ^ 64 ≤ sum strengths.now) }
    ensures state { rng.new ≡ choice_state G.requests strengths.now rng.old }
{
    let index = choose_weighted(rng, strengths)?;
    Ok(addresses[index])
}

/// A server of n times the strength of another is chosen by n times as many words, if the sum of
/// the strengths is not 0 and not greater than the number of words.
pub fn requests_follow_strengths()
    ensures { WordsFollowStrengths }
{
    laws::weighted_choices_are_fair();
}
