//! The text of the answers and the items.

ghost use Rattle.std.specs.Prelude.{◌≡◌, ◌++◌, ◌∷◌, [], codes, IfOk, OnOk, string_bytes};
ghost use Rattle.std.specs.List.{flat_map};
ghost use Rattle.draw_core.specs.Text.{line_of, item_text, text_of};

use nanorand::replay::Answer;
use std::alloc::{AllocError, Allocator};

/// Appends an answer and a line feed.
fn push_answer<A: Allocator>(text: &mut String<A>, answer: &Answer) -> Result<(), AllocError>
    ensures { OnOk result (string_bytes text.new ≡ string_bytes text.old ++ line_of answer.now) }
{
    match answer {
        Answer::Unsigned(number) => writeln!(text, "{number}"),
        Answer::Signed(number) => writeln!(text, "{number}"),
        Answer::Truth(truth) => writeln!(text, "{truth}"),
        Answer::Empty => writeln!(text, "empty"),
        Answer::Exhausted => writeln!(text, "exhausted"),
        Answer::Shuffled => writeln!(text, "shuffled"),
    }
}

/// Appends one line for each answer.
fn push_answers<A: Allocator>(text: &mut String<A>, answers: &[Answer]) -> Result<(), AllocError>
    ensures { OnOk result
        (string_bytes text.new ≡ string_bytes text.old ++ flat_map line_of answers.now) }
{
    for answer in answers {
        push_answer(text, answer)?;
    }
    Ok(())
}

/// Appends each item, preceded by a space.
fn push_items<A: Allocator>(text: &mut String<A>, items: &[u64]) -> Result<(), AllocError>
    ensures { OnOk result
        (string_bytes text.new ≡ string_bytes text.old ++ flat_map item_text items.now) }
{
    for item in items {
        write!(text, " {item}")?;
    }
    Ok(())
}

/// Returns the text of the answers and the items: one line for each answer, and one line with the
/// items if there are any.
pub fn text_of<A: Allocator>(
    alloc: A,
    answers: &[Answer],
    items: &[u64],
) -> Result<String<A>, AllocError>
    ensures { IfOk result (λ text.
        string_bytes text ≡ text_of (record { answers = answers.now; items = items.now })) }
{
    let mut text = String::new(alloc);
    push_answers(&mut text, answers)?;
    if !items.is_empty() {
        text.push_str("items:")?;
        push_items(&mut text, items)?;
        text.push('\n')?;
    }
    Ok(text)
}
