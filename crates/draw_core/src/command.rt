//! Parses the command-line arguments into a command.

ghost use Rattle.std.specs.Prelude.{◌≡◌, ◌≢◌, ℕ, ◌<◌, ◌≤◌, ◌+◌, IfOk, IfErr, IfSome, OnOk, Some, List, drop, IsTrue, ◌↔◌, slice_index_or, [], length};
ghost use Rattle.draw_core.specs.Arguments.{IsSeed, generator_of, name_of_generator, IsCount, IsFirstUnreadable, AreRequests, Asked, AsksFor, asked_by, name_of_mode, FirstBadRequest, texts, argument_at};
ghost use Rattle.nanorand_replay.specs.declared.replay.Call.{Call as ACall};
ghost use Rattle.draw_core.specs.declared.command.Generator.{Generator as AGenerator};
ghost use Rattle.draw_core.specs.declared.command.Mode.{Mode as AMode};
ghost use Rattle.draw_core.specs.declared.command.SeededGenerator.{SeededGenerator as ASeededGenerator};

use crate::error::DrawError;
use crate::numbers::read_unsigned;
use crate::requests::call_of;
use hex::FromHex;
use nanorand::replay::Call;
use std::alloc::Allocator;

/// The generators that the first argument can name.
#[derive(Clone, Copy)]
pub enum Generator {
    WyRand,
    Pcg64,
    ChaCha8,
    ChaCha12,
    ChaCha20,
}

/// A generator and the bytes of its seed: a little-endian number for `WyRand` and `Pcg64`, and a
/// key of 32 bytes followed by a nonce of 8 bytes for ChaCha.
#[derive(Clone, Copy)]
pub enum SeededGenerator {
    WyRand([u8; 8]),
    Pcg64([u8; 16]),
    ChaCha8([u8; 40]),
    ChaCha12([u8; 40]),
    ChaCha20([u8; 40]),
}

/// Whether the draws are buffered. A word is a random integer of N bits. In plain mode each value
/// or word starts with a new block of the generator; in buffered mode it continues where the last
/// one ended.
#[derive(Clone, Copy)]
pub enum Mode {
    Plain,
    Buffered,
}

/// What the arguments ask for: `count` items 0, 1, .., and a list of calls of a generator.
#[derive(Drop)]
pub struct Command<A: Allocator> {
    pub generator: SeededGenerator,
    pub mode: Mode,
    pub count: u64,
    pub calls: Vec<Call, A>,
}

/// The greatest allowed number of items.
const MOST_ITEMS: u64 = 1000;

/// Returns the generator with this name.
fn generator_named(name: &str) -> Option<Generator>
    ensures found { IfSome result (λ generator. name.now ≡ name_of_generator generator) }
    ensures only { (generator : AGenerator) → name.now ≡ name_of_generator generator →
        result ≡ Some generator }
{
    match name {
        "wyrand" => Some(Generator::WyRand),
        "pcg64" => Some(Generator::Pcg64),
        "chacha8" => Some(Generator::ChaCha8),
        "chacha12" => Some(Generator::ChaCha12),
        "chacha20" => Some(Generator::ChaCha20),
        _ => None,
    }
}

/// Returns the generator with the seed that the text gives, as two hexadecimal digits for each
/// byte.
fn seeded_generator(generator: Generator, seed: &str) -> Option<SeededGenerator>
    ensures found { IfSome result (λ seeded.
        (generator_of seeded ≡ generator) × IsSeed seed.now seeded) }
    ensures only { (seeded : ASeededGenerator) → generator_of seeded ≡ generator →
        IsSeed seed.now seeded → result ≡ Some seeded }
{
    match generator {
        Generator::WyRand => Some(SeededGenerator::WyRand(<[u8; 8]>::from_hex(seed).ok()?)),
        Generator::Pcg64 => Some(SeededGenerator::Pcg64(<[u8; 16]>::from_hex(seed).ok()?)),
        Generator::ChaCha8 => Some(SeededGenerator::ChaCha8(<[u8; 40]>::from_hex(seed).ok()?)),
        Generator::ChaCha12 => Some(SeededGenerator::ChaCha12(<[u8; 40]>::from_hex(seed).ok()?)),
        Generator::ChaCha20 => Some(SeededGenerator::ChaCha20(<[u8; 40]>::from_hex(seed).ok()?)),
    }
}

/// Returns the mode with this name.
fn mode_of(name: &str) -> Option<Mode>
    ensures found { IfSome result (λ mode. name.now ≡ name_of_mode mode) }
    ensures only { (mode : AMode) → name.now ≡ name_of_mode mode → result ≡ Some mode }
{
    match name {
        "plain" => Some(Mode::Plain),
        "buffered" => Some(Mode::Buffered),
        _ => None,
    }
}

/// Reads the number of items, argument 4, in decimal digits. Returns the error `BadWord` if the
/// text is not a number, or a number above `MOST_ITEMS`.
fn count_of(text: &str) -> Result<u64, DrawError>
    ensures found { IfOk result (IsCount text.now) }
    ensures only { (count : ℕ) → IsCount text.now count → result ≡ Ok count }
    ensures refusal { IfErr result (λ error. error ≡ DrawError.BadWord 4) }
{
    read_unsigned(text)
        .filter(|count| *count <= MOST_ITEMS)
        .ok_or(DrawError::BadWord(4))
}

/// Reads the requests and returns their calls. The first request is argument 5.
fn calls_of<A: Allocator>(alloc: A, requests: &[String]) -> Result<Vec<Call, A>, DrawError>
    ensures said { IfOk result (λ calls. AreRequests (texts requests.now) calls.items) }
    ensures only { IfOk result (λ calls. (others : List ACall) →
        AreRequests (texts requests.now) others → others ≡ calls.items) }
    ensures not_write { result ≢ Err DrawError.Write }
    ensures bad { (k : ℕ) → result ≡ Err (DrawError.BadWord k) →
        FirstBadRequest (texts requests.now) k }
{
    let mut calls = Vec::new(alloc);
    for (index, request) in requests.iter().enumerate() {
        let Some(call) = call_of(request.as_str()) else {
            return Err(DrawError::BadWord(index + 5));
        };
        calls.push(call)?;
    }
    Ok(calls)
}

/// Returns the argument at the index, or an empty text if it is missing.
fn argument(arguments: &[String], index: usize) -> &str
    ensures { result.now ≡ argument_at (texts arguments.now) index }
{
    arguments
        .get(index)
        .map_or("", |argument| argument.as_str())
}

/// Parses the command-line arguments into a command.
///
/// Returns `BadWord` if an argument cannot be read, and `Memory` if an allocation fails.
pub fn read<A: Allocator>(alloc: A, arguments: &[String]) -> Result<Command<A>, DrawError>
    ensures said { IfOk result (λ command. AsksFor (texts arguments.now) (asked_by command)) }
    ensures only { IfOk result (λ command. (other : Asked) →
        AsksFor (texts arguments.now) other → other ≡ asked_by command) }
    ensures not_write { result ≢ Err DrawError.Write }
    ensures bad { (k : ℕ) → result ≡ Err (DrawError.BadWord k) →
        IsFirstUnreadable (texts arguments.now) k }

    // If one of the first four arguments cannot be read, the error is `BadWord` even if memory has
    // run out: they are read without allocating.
    ensures early { (k : ℕ) → k ≤ 4 → IsFirstUnreadable (texts arguments.now) k →
        result ≡ Err (DrawError.BadWord k) }
{
    let generator = generator_named(argument(arguments, 0)).ok_or(DrawError::BadWord(1))?;
    let seeded = seeded_generator(generator, argument(arguments, 1)).ok_or(DrawError::BadWord(2))?;
    let mode = mode_of(argument(arguments, 2)).ok_or(DrawError::BadWord(3))?;
    let count = count_of(argument(arguments, 3))?;
    // An empty COUNT is an error, so there are at least four arguments here.
    let calls = calls_of(alloc, &arguments[4..])?;
    Ok(Command {
        generator: seeded,
        mode,
        count,
        calls,
    })
}
