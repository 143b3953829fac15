//! The `Debug` and `Display` texts of generators. A clause states the plain texts; these tests
//! check that no format option changes them.

use crate::comparing::display_is;
use nanorand::{Blocks, ChaCha, ChaCha8, ChaCha12, ChaCha20, ChaChaGroups, Pcg64, WyRand};
use std::alloc::AllocError;
use std::fmt::{Debug, Display};
use std::process::Abort;
use std::test::Fail;

// The value has this text, also in alternate form, with a fill, an alignment, a sign, leading zeros
// and a precision.
fn has_debug_text<T: Debug>(
    rt: &(impl Abort + AllocGlobal),
    value: &T,
    text: &str,
) -> Result<(), AllocError> {
    let texts = format_args!("{value:?}{value:*^+#0200.3?}");
    display_is(rt, &texts, text.repeat(rt.alloc(), 2)?.as_str())
}

fn has_display_text<T: Display>(
    rt: &(impl Abort + AllocGlobal),
    value: &T,
    text: &str,
) -> Result<(), AllocError> {
    let texts = format_args!("{value}{value:*^+#0200.3}");
    display_is(rt, &texts, text.repeat(rt.alloc(), 2)?.as_str())
}

/// The value has these texts, whatever the format options are.
pub fn has_texts<T: Debug + Display>(
    rt: &(impl Abort + AllocGlobal),
    value: &T,
    debug: &str,
    display: &str,
) -> Result<(), AllocError> {
    has_debug_text(rt, value, debug)?;
    has_display_text(rt, value, display)
}

// A generator at a counter. Its texts do not show the key or the nonce.
fn chacha_has_texts<const ROUNDS: u8>(
    rt: &(impl Abort + AllocGlobal),
    generator: &mut ChaCha<ROUNDS>,
    counter: u64,
) -> Result<(), AllocError> {
    generator.jump(counter);
    let debug = format!(in rt.alloc(); "ChaCha20 {{ rounds: {ROUNDS}, counter: {counter} }}")?;
    let display = format!(in rt.alloc(); "ChaCha ({ROUNDS} rounds)")?;
    has_texts(rt, generator, debug.as_str(), display.as_str())
}

#[test]
fn of_wyrand_and_pcg64(rt: HostRuntime) -> Result<(), Fail> {
    has_texts(
        &rt,
        &WyRand::new_seed(u64::MAX),
        "WyRand { seed: 0xffffffffffffffff }",
        "WyRand",
    )?;
    let mut pcg64 = Pcg64::new_seed(u128::MAX);
    let _ = pcg64.rand();
    let drawn =
        "Pcg64 { seed: 0xad254c432166b9e3173c6cc51e71ac88, state: 0xad254c432166b9e3173c6cc51e71ac88, inc: 0xffffffffffffffffffffffffffffffff }";
    has_texts(&rt, &pcg64, drawn, "Pcg64")?;
    Ok(())
}

#[test]
fn of_chacha(rt: HostRuntime) -> Result<(), Fail> {
    let (key, nonce) = ([0xab; 32], [0xcd; 8]);
    chacha_has_texts(&rt, &mut ChaCha8::new_key(key, nonce), 0)?;
    chacha_has_texts(&rt, &mut ChaCha12::new_key(key, nonce), 1 << 32)?;
    chacha_has_texts(&rt, &mut ChaCha20::new_key(key, nonce), u64::MAX)?;
    has_texts(
        &rt,
        &ChaChaGroups::<20>::at(key, nonce, 5),
        "ChaChaGroups { rounds: 20, counter: 5 }",
        "ChaCha (20 rounds, by groups)",
    )?;
    Ok(())
}
