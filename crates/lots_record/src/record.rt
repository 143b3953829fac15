//! The text of a record.
ghost use Rattle.std.specs.Prelude.{◌≡◌, ◌++◌, OnOk, IfOk, codes, length, map, string_bytes};
ghost use Rattle.hex.specs.Hex.{encode_lower};
ghost use Rattle.lots_record.specs.Quoted.{quoted};
ghost use Rattle.lots_record.specs.Record as spec;

use crate::quoted::push_quoted;
use lots_core::arguments::Count;
use lots_core::text::text_of;
use lots_core::{LotsError, draw_lines};
use sha2::{Digest, Sha256};
use std::alloc::{AllocError, Allocator};

/// What a record is made from, besides the list.
#[derive(Drop)]
pub struct Source<'a> {
    /// The seed, which is not empty.
    pub seed: &'a str,
    /// How many entrants to draw.
    pub count: Count,
    /// The SHA-256 of the announcement, if there is one.
    pub announcement: Option<[u8; 32]>,
    /// The SHA-256 of the module that made the draw, if there is one.
    pub program: Option<[u8; 32]>,
}

/// Appends a line with a SHA-256 in hexadecimal digits.
pub fn push_sum<A: Allocator>(
    text: &mut String<A>,
    alloc: &A,
    name: &str,
    sum: &[u8],
) -> Result<(), AllocError>
    ensures { OnOk result (string_bytes text.new
        ≡ string_bytes text.old ++ spec.line name.now (encode_lower sum.now)) }
{
    let digits = hex::encode(alloc, sum)?;
    writeln!(text, "{name}{digits}")
}

/// Appends a line for each entrant, with its number.
fn push_entrants<A: Allocator>(text: &mut String<A>, entrants: &[&[u8]]) -> Result<(), AllocError>
    ensures { OnOk result (string_bytes text.new ≡ string_bytes text.old
        ++ spec.entrant_lines 1 (map (λ entrant. entrant.now) entrants.now)) }
{
    let mut number: usize = 0;
    for entrant in entrants {
        number += 1;
        write!(text, "{number}: ")?;
        push_quoted(text, entrant)?;
        text.push('\n')?;
    }
    Ok(())
}

/// Appends a line that says how many are drawn beyond the first 1000, if there are any.
fn push_more<A: Allocator>(text: &mut String<A>, count: usize) -> Result<(), AllocError>
    ensures { OnOk result
        (string_bytes text.new ≡ string_bytes text.old ++ spec.more_line count) }
{
    if count <= 1000 {
        return Ok(());
    }
    let left = count - 1000;
    writeln!(text, "and {left} more")
}

/// Appends the entrants drawn, at most the first 1000 of them, and the last line.
fn push_drawn<A: Allocator>(text: &mut String<A>, drawn: &[&[u8]]) -> Result<(), AllocError>
    ensures { OnOk result (string_bytes text.new ≡ string_bytes text.old
        ++ spec.drawn_lines (map (λ entrant. entrant.now) drawn.now)) }
{
    push_entrants(text, &drawn[..drawn.len().min(1000)])?;
    push_more(text, drawn.len())?;
    text.push_str("end of the record\n")?;
    Ok(())
}

/// Appends the line of the announcement.
fn push_announcement<A: Allocator>(
    text: &mut String<A>,
    alloc: &A,
    sum: &Option<[u8; 32]>,
) -> Result<(), AllocError>
    ensures { OnOk result (string_bytes text.new ≡ string_bytes text.old
        ++ spec.line (codes "announcement SHA-256: ") (spec.sum_or_none sum.now)) }
{
    match sum {
        Some(sum) => push_sum(text, alloc, "announcement SHA-256: ", sum),
        None => text.push_str("announcement SHA-256: none\n"),
    }
}

/// Appends the line of the module that made the draw, if there is one.
fn push_program<A: Allocator>(
    text: &mut String<A>,
    alloc: &A,
    sum: &Option<[u8; 32]>,
) -> Result<(), AllocError>
    ensures { OnOk result
        (string_bytes text.new ≡ string_bytes text.old ++ spec.module_line sum.now) }
{
    match sum {
        Some(sum) => push_sum(text, alloc, "module SHA-256: ", sum),
        None => Ok(()),
    }
}

/// Appends the line of the seed.
fn push_seed<A: Allocator>(text: &mut String<A>, seed: &str) -> Result<(), AllocError>
    ensures { OnOk result (string_bytes text.new
        ≡ string_bytes text.old ++ spec.line (codes "seed: ") (quoted seed.now)) }
{
    text.push_str("seed: ")?;
    push_quoted(text, seed.as_bytes())?;
    text.push('\n')
}

/// Appends the lines that say what was drawn from: the announcement, the seed, the list, how many
/// entrants it has and how many are drawn, and the module.
fn push_source<A: Allocator>(
    text: &mut String<A>,
    alloc: &A,
    source: &Source<'_>,
    list: &[u8],
    entrants: usize,
) -> Result<(), AllocError>
    ensures { OnOk result (string_bytes text.new ≡ string_bytes text.old
        ++ spec.source_lines (spec.source_of source.now entrants) list.now entrants) }
{
    text.push_str("nanorand public draw 2\n")?;
    push_announcement(text, alloc, &source.announcement)?;
    push_seed(text, source.seed)?;
    push_sum(text, alloc, "list SHA-256: ", &Sha256::digest(list))?;
    writeln!(text, "entrants: {entrants}")?;
    let drawn = source.count.among(entrants);
    writeln!(text, "drawn: {drawn}")?;
    push_program(text, alloc, &source.program)
}

/// Appends the lines that say what is drawn.
fn push_result<'a, A: Allocator>(
    text: &mut String<&'a A>,
    alloc: &'a A,
    drawn: &[&[u8]],
) -> Result<(), AllocError>
    ensures { OnOk result (string_bytes text.new ≡ string_bytes text.old
        ++ spec.result_lines (map (λ entrant. entrant.now) drawn.now)) }
{
    let written = text_of(alloc, drawn)?;
    push_sum(text, &alloc, "result SHA-256: ", &Sha256::digest(&written))?;
    push_drawn(text, drawn)
}

/// Returns the record of a draw from the list, or the error of the draw.
pub fn record<'a, A: Allocator>(
    alloc: &'a A,
    source: &Source<'_>,
    list: &[u8],
) -> Result<String<&'a A>, LotsError>
    ensures { spec.Recorded source.now list.now result }
{
    let (entrants, count) = draw_lines(alloc, source.seed, source.count, list)?;
    let mut text = String::new(alloc);
    push_source(&mut text, &alloc, source, list, entrants.len())?;
    push_result(&mut text, alloc, &entrants[..count])?;
    Ok(text)
}
