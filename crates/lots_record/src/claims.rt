//! Reads back what a record is made from.
ghost use Rattle.std.specs.Prelude.{[], ◌≡◌, ◌⊎◌, ◌++◌, ◌<◌, ◌^◌, ℕ, List, length, codes, Option, Some, IsSomeAnd, All, Decides, IfErr, IfOk, IfSome};
ghost use Rattle.std.specs.Char.{digit_char};
ghost use Rattle.lots_core.specs.Lists.{HasNoLineFeed};
ghost use Rattle.hex.specs.Hex.{encode_lower};
ghost use Rattle.sha2.specs.Sha256.{sha256};
ghost use Rattle.lots_record.specs.Quoted.{BeginsWith, Spells, quoted};
ghost use Rattle.lots_core.specs.declared.error.LotsError.TheVariants.{Memory};
ghost use Rattle.lots_record.specs.declared.check_error.CheckError.TheVariants.{Draw, Unreadable};
ghost use Rattle.lots_record.specs.Claims as spec;
ghost use Rattle.lots_core.specs.Arguments.{IsNumber};
ghost use Rattle.lots_record.specs.Record.{IsSum, Source, line, source_lines, sum_or_none};

use crate::check_error::CheckError;
use lots_core::arguments::{Count, count_of};
use lots_core::line_end;
use sha2::{Digest, Sha256};
use std::alloc::Allocator;

/// Returns the value of a hexadecimal digit.
fn digit(letter: u8) -> Option<u8>
    ensures value { (value : ℕ) → value < 16 → letter ≡ digit_char value → result ≡ Some value }
    ensures small { IfSome result (λ value. value < 16) }
{
    Some((letter as char).to_digit(16)? as u8)
}

/// Returns the first byte that a text spells, and the text after it.
fn first_byte(text: &[u8]) -> Option<(u8, &[u8])>
    ensures found { (byte : ℕ) (rest : List ℕ) → BeginsWith byte text.now rest →
        IsSomeAnd result (λ first. (first.0 ≡ byte) × (first.1.now ≡ rest)) }
    ensures shorter { IfSome result (λ first. length first.1.now < length text.now) }
{
    match text {
        [b'\\', b'x', high, low, rest @ ..] => Some((16 * digit(*high)? + digit(*low)?, rest)),
        [b'\\', ..] | [] => None,
        [byte, rest @ ..] => Some((*byte, rest)),
    }
}

/// Returns the bytes that a text spells.
fn spelled<A: Allocator>(alloc: A, text: &[u8]) -> Result<Vec<u8, A>, CheckError>
    ensures found { (bytes : List ℕ) → Spells bytes text.now → spec.Reads bytes result }
    ensures error { IfErr result (λ error. (error ≡ Unreadable) ⊎ (error ≡ Draw Memory)) }
{
    let mut bytes = Vec::new(alloc);
    let mut rest = text;
    'bytes: while !rest.is_empty() {
        let Some((byte, after)) = first_byte(rest) else {
            return Err(CheckError::Unreadable);
        };
        bytes.push(byte)?;
        rest = after;
    }
    Ok(bytes)
}

/// Returns the bytes that a text in quotation marks shows.
pub fn unquoted<A: Allocator>(alloc: A, text: &[u8]) -> Result<Vec<u8, A>, CheckError>
    ensures found { (bytes : List ℕ) → All (λ byte. byte < 256) bytes → text.now ≡ quoted bytes →
        spec.Reads bytes result }
    ensures error { IfErr result (λ error. (error ≡ Unreadable) ⊎ (error ≡ Draw Memory)) }
{
    if text.len() < 2 {
        return Err(CheckError::Unreadable);
    }
    spelled(alloc, &text[1..text.len() - 1])
}

/// Returns the value of the first line, if the line begins with the name, and the text after it.
fn first_value<'a>(text: &'a [u8], name: &[u8]) -> Option<(&'a [u8], &'a [u8])>
    ensures found { (value rest : List ℕ) → HasNoLineFeed value →
        text.now ≡ line name.now value ++ rest →
        IsSomeAnd result (λ parts. (parts.0.now ≡ value) × (parts.1.now ≡ rest)) }
    ensures only { IfSome result (λ parts. text.now ≡ line name.now parts.0.now ++ parts.1.now) }
{
    let after = text.strip_prefix(name)?;
    let end = line_end(after)?;
    Some((&after[..end], &after[end + 1..]))
}

/// Returns the value of the first line, if the line begins with the name, and the text after it.
/// Otherwise both are empty.
pub fn value_after<'a>(text: &'a [u8], name: &[u8]) -> (&'a [u8], &'a [u8])
    ensures found { (value rest : List ℕ) → HasNoLineFeed value →
        text.now ≡ line name.now value ++ rest →
        (result.0.now ≡ value) × (result.1.now ≡ rest) }
    ensures absent { ((rest : List ℕ) → text.now ≡ name.now ++ rest → ⊥) →
        result.0.now ≡ [] }
{
    match first_value(text, name) {
        Some(parts) => parts,
        None => (&[], &[]),
    }
}

/// The values of the lines of a record that say what it is made from. A value is empty if its line
/// is missing.
#[derive(Drop)]
pub struct Values<'a> {
    pub format: &'a [u8],
    pub announcement: &'a [u8],
    pub seed: &'a [u8],
    pub list: &'a [u8],
    pub drawn: &'a [u8],
    pub program: &'a [u8],
}

/// Returns the values of the first lines of a record.
fn values_of(text: &[u8]) -> Values<'_>
    ensures { (source : Source) (list : List ℕ) (n : ℕ) (sum rest : List ℕ) → n < 2 ^ 64 →
        source.count < 2 ^ 64 →
        text.now ≡ source_lines source list n ++ (line (codes "result SHA-256: ") sum ++ rest) →
        spec.AreValues result source list }
{
    let (format, text) = value_after(text, b"nanorand public draw ");
    let (announcement, text) = value_after(text, b"announcement SHA-256: ");
    let (seed, text) = value_after(text, b"seed: ");
    let (list, text) = value_after(text, b"list SHA-256: ");
    let (_, text) = value_after(text, b"entrants: ");
    let (drawn, text) = value_after(text, b"drawn: ");
    let (program, _) = value_after(text, b"module SHA-256: ");
    Values {
        format,
        announcement,
        seed,
        list,
        drawn,
        program,
    }
}

/// Returns the SHA-256 that 64 hexadecimal digits spell.
fn sum_of(digits: &[u8]) -> Option<[u8; 32]>
    ensures found { (sum : List ℕ) → IsSum sum → digits.now ≡ encode_lower sum →
        result ≡ Some sum }
    ensures sum { IfSome result IsSum }
{
    let mut sum = [0; 32];
    hex::decode_to_slice(digits, &mut sum).ok()?;
    Some(sum)
}

/// Returns the SHA-256 that a text spells, or no SHA-256 (`Some(None)`) if the text is `none`.
fn announcement_of(text: &[u8]) -> Option<Option<[u8; 32]>>
    ensures found { (sum : Option (List ℕ)) → IfSome sum IsSum → text.now ≡ sum_or_none sum →
        result ≡ Some sum }
    ensures sum { IfSome result (λ sum. IfSome sum IsSum) }
{
    if text == b"none".as_slice() {
        return Some(None);
    }
    Some(Some(sum_of(text)?))
}

/// Returns the SHA-256 that a text spells, or no SHA-256 (`Some(None)`) if the text is empty.
fn program_of(text: &[u8]) -> Option<Option<[u8; 32]>>
    ensures found { (sum : Option (List ℕ)) → IfSome sum IsSum →
        text.now ≡ spec.digits_of sum → result ≡ Some sum }
    ensures sum { IfSome result (λ sum. IfSome sum IsSum) }
{
    if text.is_empty() {
        return Some(None);
    }
    Some(Some(sum_of(text)?))
}

/// Returns the number that decimal digits spell, if it is below 2^64.
pub fn number_of(digits: &[u8]) -> Option<usize>
    ensures found { IfSome result (IsNumber digits.now) }
    ensures only { (n : ℕ) → IsNumber digits.now n → result ≡ Some n }
{
    match count_of(str::from_utf8(digits).ok()?)? {
        Count::Of(number) => Some(number),
        Count::All => None,
    }
}

/// Whether a record names the SHA-256 of this list.
pub fn names_list(text: &[u8], list: &[u8]) -> bool
    ensures { (source : Source) (other : List ℕ) (n : ℕ) (sum rest : List ℕ) → n < 2 ^ 64 →
        source.count < 2 ^ 64 →
        text.now ≡ source_lines source other n ++ (line (codes "result SHA-256: ") sum ++ rest) →
        Decides result (sha256 other ≡ sha256 list.now) }
{
    sum_of(values_of(text).list) == Some(Sha256::digest(list))
}

/// What a record says that it is made from.
#[derive(Drop)]
pub struct Claims<A: Allocator> {
    pub seed: Vec<u8, A>,
    pub count: usize,
    pub announcement: Option<[u8; 32]>,
    pub program: Option<[u8; 32]>,
}

/// Reads what a record says that it is made from.
pub fn claims_of<A: Allocator>(alloc: A, text: &[u8]) -> Result<Claims<A>, CheckError>
    ensures found { (source : Source) (list : List ℕ) (n : ℕ) (sum rest : List ℕ) → n < 2 ^ 64 →
        spec.CanBeRead source →
        text.now ≡ source_lines source list n ++ (line (codes "result SHA-256: ") sum ++ rest) →
        spec.IsClaimed source result }
    ensures sums { IfOk result spec.AreSums }
    ensures error { IfErr result (λ error. (error ≡ Unreadable) ⊎ (error ≡ Draw Memory)) }
{
    let values = values_of(text);
    if values.format != b"2".as_slice() {
        return Err(CheckError::Unreadable);
    }
    let count = number_of(values.drawn).ok_or(CheckError::Unreadable)?;
    let announcement = announcement_of(values.announcement).ok_or(CheckError::Unreadable)?;
    let program = program_of(values.program).ok_or(CheckError::Unreadable)?;
    let seed = unquoted(alloc, values.seed)?;
    Ok(Claims {
        seed,
        count,
        announcement,
        program,
    })
}
