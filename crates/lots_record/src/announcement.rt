//! The text of an announcement, and whether a text is the announcement of a draw from a list.
ghost use Rattle.std.specs.Prelude.{◌≡◌, ◌++◌, ◌<◌, ◌^◌, ℕ, List, length, Decides, OnOk, IfErr, IfOk, codes, decimal, string_bytes};
ghost use Rattle.std.specs.Str.{IsUtf8};
ghost use Rattle.lots_core.specs.Lists.{lines_of};
ghost use Rattle.lots_core.specs.declared.error.LotsError.TheVariants.{Memory};
ghost use Rattle.lots_record.specs.Announcement as spec;
ghost use Rattle.lots_record.specs.Quoted.{quoted};
ghost use Rattle.lots_record.specs.Record.{line};

use crate::check_error::CheckError;
use crate::claims::{number_of, unquoted, value_after};
use crate::quoted::push_quoted;
use crate::record::push_sum;
use lots_core::{LotsError, count_entrants};
use sha2::{Digest, Sha256};
use std::alloc::{AllocError, Allocator};

/// What an announcement says, besides the list.
#[derive(Drop)]
pub struct Plan<'a> {
    /// What is drawn for.
    pub occasion: &'a str,
    /// How many are drawn first: the winners.
    pub winners: usize,
    /// How many are drawn after them: if a winner declines, the first reserve takes the place.
    pub reserves: usize,
    /// Where the seed will come from.
    pub source: &'a str,
    /// How the seed will be written.
    pub form: &'a str,
    /// A seed of this form.
    pub example: &'a str,
    /// When and where the seed will be fixed.
    pub time: &'a str,
}

/// Appends a line with a quoted text.
fn push_text<A: Allocator>(text: &mut String<A>, name: &str, value: &str) -> Result<(), AllocError>
    ensures { OnOk result (string_bytes text.new
        ≡ string_bytes text.old ++ line name.now (quoted value.now)) }
{
    text.push_str(name)?;
    push_quoted(text, value.as_bytes())?;
    text.push('\n')
}

/// Appends a line with a number.
fn push_number<A: Allocator>(
    text: &mut String<A>,
    name: &str,
    number: usize,
) -> Result<(), AllocError>
    ensures { OnOk result (string_bytes text.new
        ≡ string_bytes text.old ++ line name.now (decimal number)) }
{
    writeln!(text, "{name}{number}")
}

/// Appends the lines of the list: its SHA-256, and how many entrants it has.
fn push_list<A: Allocator>(
    text: &mut String<A>,
    alloc: &A,
    list: &[u8],
    entrants: usize,
) -> Result<(), AllocError>
    ensures { OnOk result (string_bytes text.new
        ≡ string_bytes text.old ++ spec.list_lines list.now entrants) }
{
    push_sum(text, alloc, "list SHA-256: ", &Sha256::digest(list))?;
    push_number(text, "entrants: ", entrants)
}

/// Appends the lines that say where the seed comes from, and when.
fn push_seed_lines<A: Allocator>(text: &mut String<A>, plan: &Plan<'_>) -> Result<(), AllocError>
    ensures { OnOk result (string_bytes text.new
        ≡ string_bytes text.old ++ spec.seed_lines (spec.plan_of plan.now)) }
{
    push_text(text, "seed source: ", plan.source)?;
    push_text(text, "seed form: ", plan.form)?;
    push_text(text, "seed example: ", plan.example)?;
    push_text(text, "time: ", plan.time)
}

/// Returns the text of the announcement of a draw from a list of `entrants` entrants.
fn text_for<'a, A: Allocator>(
    alloc: &'a A,
    plan: &Plan<'_>,
    list: &[u8],
    entrants: usize,
) -> Result<String<&'a A>, AllocError>
    ensures { IfOk result (λ text.
        string_bytes text ≡ spec.text_of (spec.plan_of plan.now) list.now entrants) }
{
    let mut text = String::new(alloc);
    text.push_str("nanorand announcement 1\n")?;
    push_text(&mut text, "occasion: ", plan.occasion)?;
    push_list(&mut text, &alloc, list, entrants)?;
    push_number(&mut text, "winners: ", plan.winners)?;
    push_number(&mut text, "reserves: ", plan.reserves)?;
    push_seed_lines(&mut text, plan)?;
    text.push_str("end of the announcement\n")?;
    Ok(text)
}

/// Returns the announcement of a draw from a list.
///
/// Returns `EmptyLine` as `count_entrants` does, `TooFew` if and only if the list has fewer entrants
/// than there are winners and reserves, or `Memory`.
pub fn announcement<'a, A: Allocator>(
    alloc: &'a A,
    plan: &Plan<'_>,
    list: &[u8],
) -> Result<String<&'a A>, LotsError>
    ensures { spec.Announced (spec.plan_of plan.now) list.now result }
{
    let entrants = count_entrants(list)?;
    if entrants < plan.winners || entrants - plan.winners < plan.reserves {
        let count = plan.winners.saturating_add(plan.reserves);
        return Err(LotsError::TooFew { entrants, count });
    }
    Ok(text_for(alloc, plan, list, entrants)?)
}

/// The values of the lines of an announcement. A value is empty if its line is missing.
#[derive(Drop)]
pub struct Lines<'a> {
    pub format: &'a [u8],
    pub occasion: &'a [u8],
    pub winners: &'a [u8],
    pub reserves: &'a [u8],
    pub source: &'a [u8],
    pub form: &'a [u8],
    pub example: &'a [u8],
    pub time: &'a [u8],
}

/// Returns the values of the lines of an announcement.
fn lines_in(text: &[u8]) -> Lines<'_>
    ensures { (plan : spec.Plan) (list : List ℕ) (n : ℕ) → n < 2 ^ 64 → spec.IsText plan →
        text.now ≡ spec.text_of plan list n → spec.AreLines result plan }
{
    let (format, text) = value_after(text, b"nanorand announcement ");
    let (occasion, text) = value_after(text, b"occasion: ");
    let (_, text) = value_after(text, b"list SHA-256: ");
    let (_, text) = value_after(text, b"entrants: ");
    let (winners, text) = value_after(text, b"winners: ");
    let (reserves, text) = value_after(text, b"reserves: ");
    let (source, text) = value_after(text, b"seed source: ");
    let (form, text) = value_after(text, b"seed form: ");
    let (example, text) = value_after(text, b"seed example: ");
    let (time, _) = value_after(text, b"time: ");
    Lines {
        format,
        occasion,
        winners,
        reserves,
        source,
        form,
        example,
        time,
    }
}

/// Reads back a text in quotation marks. Returns `None` if it is not one, or not UTF-8.
fn read_text<A: Allocator>(alloc: A, text: &[u8]) -> Result<Option<String<A>>, LotsError>
    ensures found { (bytes : List ℕ) → IsUtf8 bytes → text.now ≡ quoted bytes →
        spec.ReadsText bytes result }
    ensures error { IfErr result (λ error. error ≡ Memory) }
{
    match unquoted(alloc, text) {
        Ok(bytes) => Ok(String::from_utf8(bytes).ok()),
        Err(CheckError::Draw(error)) => Err(error),
        Err(_) => Ok(None),
    }
}

/// The texts of an announcement.
#[derive(Drop)]
pub struct Texts<A: Allocator> {
    pub occasion: String<A>,
    pub source: String<A>,
    pub form: String<A>,
    pub example: String<A>,
    pub time: String<A>,
}

/// Reads back the texts of an announcement. Returns `None` if one of them is no text in quotation
/// marks.
fn texts_of<'a, A: Allocator>(
    alloc: &'a A,
    lines: &Lines<'_>,
) -> Result<Option<Texts<&'a A>>, LotsError>
    ensures found { (plan : spec.Plan) → spec.IsText plan → spec.AreLines lines.now plan →
        spec.ReadsTexts plan result }
    ensures error { IfErr result (λ error. error ≡ Memory) }
{
    let Some(occasion) = read_text(alloc, lines.occasion)? else {
        return Ok(None);
    };
    let Some(source) = read_text(alloc, lines.source)? else {
        return Ok(None);
    };
    let Some(form) = read_text(alloc, lines.form)? else {
        return Ok(None);
    };
    let Some(example) = read_text(alloc, lines.example)? else {
        return Ok(None);
    };
    let Some(time) = read_text(alloc, lines.time)? else {
        return Ok(None);
    };
    Ok(Some(Texts {
        occasion,
        source,
        form,
        example,
        time,
    }))
}

/// Whether no text of the plan is empty, there is a winner, and winners and reserves are `count`
/// together.
fn announces(plan: &Plan<'_>, count: usize) -> bool
    ensures { Decides result (spec.Announces (spec.plan_of plan.now) count) }
{
    !plan.occasion.is_empty()
        && !plan.source.is_empty()
        && !plan.form.is_empty()
        && !plan.example.is_empty()
        && !plan.time.is_empty()
        && 1 <= plan.winners
        && plan.winners.checked_add(plan.reserves) == Some(count)
}

/// Whether the text is, byte for byte, the announcement of a draw of `count` entrants from the
/// list. The function reads the values from the text, writes the announcement again from these, and
/// compares the two.
pub fn is_announcement<A: Allocator>(
    alloc: &A,
    text: &[u8],
    list: &[u8],
    entrants: usize,
    count: usize,
) -> Result<bool, LotsError>
    requires { entrants ≡ length (lines_of list.now) }
    ensures { spec.Tells (spec.IsAnnouncement text.now list.now count) result }
{
    let lines = lines_in(text);
    let Some(winners) = number_of(lines.winners) else {
        return Ok(false);
    };
    let Some(reserves) = number_of(lines.reserves) else {
        return Ok(false);
    };
    let Some(texts) = texts_of(alloc, &lines)? else {
        return Ok(false);
    };
    let plan = Plan {
        occasion: texts.occasion.as_str(),
        winners,
        reserves,
        source: texts.source.as_str(),
        form: texts.form.as_str(),
        example: texts.example.as_str(),
        time: texts.time.as_str(),
    };
    if !announces(&plan, count) {
        return Ok(false);
    }
    Ok(text_for(alloc, &plan, list, entrants)?.as_bytes() == text)
}
