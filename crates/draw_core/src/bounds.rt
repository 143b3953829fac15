//! The two bounds of a range, written as LOW..HIGH or LOW..=HIGH.

ghost use Rattle.std.specs.Prelude.{◌≡◌, IfSome, Some};
ghost use Rattle.std.specs.declared.ops.Bound.{Bound as ABound};
ghost use Rattle.draw_core.specs.Requests.{IsLow, IsHigh, IsRange};

use crate::numbers::ReadNumber;
use std::ops::Bound;

/// Returns the bounds that the text gives, or `None` if it gives none. A missing bound is
/// unbounded.
pub fn bounds<N: ReadNumber>(text: &str) -> Option<(Bound<N>, Bound<N>)>
    ensures found { IfSome result (λ pair. IsRange N.is_text text.now pair.0 pair.1) }
    ensures only { (low high : ABound N) → IsRange N.is_text text.now low high →
        result ≡ Some (low, high) }
{
    let (low, high) = text.split_once("..")?;
    Some((low_bound(low)?, high_bound(high)?))
}

/// Reads the low bound, which is the text before the dots. It is included in the range.
fn low_bound<N: ReadNumber>(text: &str) -> Option<Bound<N>>
    ensures found { IfSome result (IsLow N.is_text text.now) }
    ensures only { (low : ABound N) → IsLow N.is_text text.now low → result ≡ Some low }
{
    if text.is_empty() {
        return Some(Bound::Unbounded);
    }
    Some(Bound::Included(N::read(text)?))
}

/// Reads the high bound, which is the text after the dots. It is included in the range if the text
/// begins with `=`, and excluded otherwise.
fn high_bound<N: ReadNumber>(text: &str) -> Option<Bound<N>>
    ensures found { IfSome result (IsHigh N.is_text text.now) }
    ensures only { (high : ABound N) → IsHigh N.is_text text.now high → result ≡ Some high }
{
    if text.is_empty() {
        return Some(Bound::Unbounded);
    }
    match text.strip_prefix('=') {
        Some(greatest) => Some(Bound::Included(N::read(greatest)?)),
        None => Some(Bound::Excluded(N::read(text)?)),
    }
}
