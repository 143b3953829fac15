//! The values that a generator draws.
ghost use Rattle.std.specs.Prelude.{◌≡◌, ℕ, ◌*◌, ◌≤◌, All, Bool, length, true};
ghost use Rattle.std.specs.Fn.{CalledAtMut, iterate};
ghost use Rattle.nanorand_core.specs.values.Fills.{CallsReturn, EachCallDraws, EachCallLeaves, EachCallPasses, EachCallTakes, OwnCallsDraw, OwnCallsLeave, OwnCallsPass, OwnCallsTake};
ghost use Rattle.nanorand_core.specs.values.Values.{truth_of, values_from};

mod bytes;
pub mod number;
pub mod range;
mod signed;
mod unsigned;
pub mod word;

use crate::rand::Rng;
pub use range::{RandomRange, RangeError};
pub use word::pick_word;

/// A type whose values can be drawn from a generator. Drawing a value cannot return an error.
/// `OUTPUT` is the number of bytes in a block of the generator.
///
/// A request is one read of n bytes from the generator. An integer of N bits takes one request of
/// N / 8 bytes, in little-endian order; signed types are in two's complement. `usize` and `isize`
/// have 64 bits. An array of N bytes takes one request of N bytes.
///
/// There are no floats. Draw a number below a power of two with `choices::below`, and an event that
/// happens in n of m cases with `choices::ratio`.
pub trait RandomGen<G: Rng<OUTPUT>, const OUTPUT: usize> {
    // The value that is drawn from a state.
    ghost value: { G → Self };

    // The state after that draw.
    ghost state_after: { G → G };

    /// Draws a value.
    fn random(rng: &mut G) -> Self
        ensures value { result ≡ value rng.old }
        ensures state { rng.new ≡ state_after rng.old };
}

/// Takes one byte; the value is true if the byte is below 128.
impl<G: Rng<OUTPUT>, const OUTPUT: usize> RandomGen<G, OUTPUT> for bool {
    ghost value = { λ g. truth_of (G.requests.bytes g 1) };

    ghost state_after = { λ g. G.requests.after g 1 };

    #[inline]
    fn random(rng: &mut G) -> bool {
        u8::from_le_bytes(next_bytes(rng)) < 128
    }
}

/// Fills the slice by calling `draw` once for each item, in the order of the items.
///
/// Use it in place of `Rng::fill` for draws that have no type of their own, such as a range or a
/// choice. For an empty slice `draw` is not called.
///
/// Precondition: the closure can be called in every state of the generator.
///
/// `ran`: the items are what the calls returned, in order, and the generator is left as the last
/// call left it. The other clauses follow from what holds for every call. `values`: if each call
/// returns `value` of the state before it and leaves `after` of that state, then the items are the
/// values that these two functions give, one after another. `state`: if each call leaves `after` of
/// the state before it, then the final state is that after one such step for each item. `words`: if
/// each call makes at most `most` steps, such as the 128 words of a range, then all calls together
/// make at most `most` steps for each item. `all`: if the value of each call passes a test, then
/// all items pass it.
///
/// The premises of these four clauses are about every closure of the type, whatever it captured. If
/// the clauses of the closure name a variable that it captures, such as a bound of a range, use
/// `own_values`, `own_state`, `own_words` and `own_all`. Their premises are about calls of `draw`
/// alone, each of which has to leave `draw` as it was.
pub fn fill_with<G, T: Drop, F: FnMut(&mut G) -> T>(rng: &mut G, target: &mut [T], mut draw: F)
    requires { F.IsAlwaysCallable draw }
    ensures ran { CallsReturn (CalledAtMut F.FnMut) draw rng.old target.new rng.new }
    ensures values { (value : G → T) (after : G → G)
        → EachCallDraws (CalledAtMut F.FnMut) value after
        → target.new ≡ values_from value after (length target.old) rng.old }
    ensures state { (after : G → G) → EachCallLeaves (CalledAtMut F.FnMut) after
        → rng.new ≡ iterate after (length target.old) rng.old }
    ensures words { (step : G → G) (most : ℕ) → EachCallTakes (CalledAtMut F.FnMut) step most
        → (n : ℕ) × (n ≤ most * length target.old) × (rng.new ≡ iterate step n rng.old) }
    ensures all { (test : T → Bool) → EachCallPasses (CalledAtMut F.FnMut) test
        → All (λ item. test item ≡ true) target.new }
    ensures own_values { (value : G → T) (after : G → G)
        → OwnCallsDraw (CalledAtMut F.FnMut) draw value after
        → target.new ≡ values_from value after (length target.old) rng.old }
    ensures own_state { (after : G → G) → OwnCallsLeave (CalledAtMut F.FnMut) draw after
        → rng.new ≡ iterate after (length target.old) rng.old }
    ensures own_words { (step : G → G) (most : ℕ)
        → OwnCallsTake (CalledAtMut F.FnMut) draw step most
        → (n : ℕ) × (n ≤ most * length target.old) × (rng.new ≡ iterate step n rng.old) }
    ensures own_all { (test : T → Bool) → OwnCallsPass (CalledAtMut F.FnMut) draw test
        → All (λ item. test item ≡ true) target.new }
{
    for item in target.iter_mut() {
        *item = draw(rng);
    }
}

// Returns the next `SIZE` bytes, by one request.
#[inline]
fn next_bytes<G: Rng<OUTPUT>, const SIZE: usize, const OUTPUT: usize>(rng: &mut G) -> [u8; SIZE]
    ensures bytes { result ≡ G.requests.bytes rng.old SIZE }
    ensures state { rng.new ≡ G.requests.after rng.old SIZE }
{
    let mut bytes = [0; SIZE];
    rng.fill_bytes(&mut bytes);
    bytes
}
