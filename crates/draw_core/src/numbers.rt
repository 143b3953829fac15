//! Numbers in the command-line arguments.

ghost use Rattle.std.specs.Prelude.{◌≡◌, ℕ, ℤ, List, IfSome, Some};
ghost use Rattle.std.specs.Int.{w64};
ghost use Rattle.draw_core.specs.Numbers.{IsUnsigned, IsSigned, IsPlain};

mod signed;
mod unsigned;

/// A number type that has ranges, and whose numbers can be read from text.
pub trait ReadNumber: Sized + Drop {
    // The text is a decimal numeral of the number.
    ghost is_text: { List ℕ → Self → Type 0 };

    /// Returns the number that the text gives, or `None` if it is not a number of this type.
    fn read(text: &str) -> Option<Self>
        ensures found { IfSome result (is_text text.now) }
        ensures only { (n : Self) → is_text text.now n → result ≡ Some n };

    // The text of a number cannot be mistaken for a part of a range.
    ghost is_plain: { (text : List ℕ) (n : Self) → is_text text n → IsPlain text };
}

/// Reads an unsigned number: decimal digits. Leading zeros are allowed, a plus sign is not.
pub fn read_unsigned(text: &str) -> Option<u64>
    ensures found { IfSome result (IsUnsigned 64 text.now) }
    ensures only { (n : ℕ) → IsUnsigned 64 text.now n → result ≡ Some n }
{
    if text.starts_with('+') {
        return None;
    }
    text.parse().ok()
}

/// Reads a signed number: decimal digits after at most one minus sign. Leading zeros are allowed, a
/// plus sign is not.
pub fn read_signed(text: &str) -> Option<i64>
    ensures found { IfSome result (IsSigned w64 text.now) }
    ensures only { (z : ℤ) → IsSigned w64 text.now z → result ≡ Some z }
{
    if text.starts_with('+') {
        return None;
    }
    text.parse().ok()
}
