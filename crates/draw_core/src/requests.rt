//! Requests: a type, a range of a type, or a shuffle.

ghost use Rattle.std.specs.Prelude.{◌≡◌, IfSome, Some};
ghost use Rattle.nanorand_replay.specs.declared.replay.Call.{Call as ACall};
ghost use Rattle.nanorand_replay.specs.declared.replay.Span.{Span as ASpan};
ghost use Rattle.draw_core.specs.Requests.{kind_of_span, IsBounds, IsRequest};

use crate::bounds::bounds;
use crate::kinds::kind_of;
use nanorand::replay::{Call, Kind, Span};

/// Returns the call that a request asks for, or `None` if the text is not a request.
pub fn call_of(text: &str) -> Option<Call>
    ensures found { IfSome result (IsRequest text.now) }
    ensures only { (call : ACall) → IsRequest text.now call → result ≡ Some call }
{
    match text.split_once(':') {
        Some((name, range)) => Some(Call::Range(span_of(kind_of(name)?, range)?)),
        None if text == "shuffle" => Some(Call::Shuffle),
        None => Some(Call::Gen(kind_of(text)?)),
    }
}

/// Returns the range of this type with the bounds that the text gives. `i128`, `u128` and `bool`
/// have no ranges.
fn span_of(kind: Kind, range: &str) -> Option<Span>
    ensures found { IfSome result (λ span. (kind_of_span span ≡ kind) × IsBounds range.now span) }
    ensures only { (span : ASpan) → kind_of_span span ≡ kind → IsBounds range.now span →
        result ≡ Some span }
{
    match kind {
        Kind::I8 => bounds(range).map(|(low, high)| Span::I8(low, high)),
        Kind::I16 => bounds(range).map(|(low, high)| Span::I16(low, high)),
        Kind::I32 => bounds(range).map(|(low, high)| Span::I32(low, high)),
        Kind::I64 => bounds(range).map(|(low, high)| Span::I64(low, high)),
        Kind::Isize => bounds(range).map(|(low, high)| Span::Isize(low, high)),
        Kind::U8 => bounds(range).map(|(low, high)| Span::U8(low, high)),
        Kind::U16 => bounds(range).map(|(low, high)| Span::U16(low, high)),
        Kind::U32 => bounds(range).map(|(low, high)| Span::U32(low, high)),
        Kind::U64 => bounds(range).map(|(low, high)| Span::U64(low, high)),
        Kind::Usize => bounds(range).map(|(low, high)| Span::Usize(low, high)),
        Kind::I128 | Kind::U128 | Kind::Bool => None,
    }
}
