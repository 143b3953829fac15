//! Signed numbers: decimal digits after at most one minus sign, with a value that fits the type.

ghost use Rattle.std.specs.Int.{w8, w16, w32, w64};
ghost use Rattle.draw_core.specs.Numbers.{IsSigned};
ghost use Rattle.draw_core.specs.support.PlainTexts.{signed_plain};

use super::{ReadNumber, read_signed};

impl ReadNumber for i8 {
    ghost is_text = { IsSigned w8 };

    ghost is_plain = { signed_plain w8 };

    fn read(text: &str) -> Option<i8> {
        i8::try_from(read_signed(text)?).ok()
    }
}

impl ReadNumber for i16 {
    ghost is_text = { IsSigned w16 };

    ghost is_plain = { signed_plain w16 };

    fn read(text: &str) -> Option<i16> {
        i16::try_from(read_signed(text)?).ok()
    }
}

impl ReadNumber for i32 {
    ghost is_text = { IsSigned w32 };

    ghost is_plain = { signed_plain w32 };

    fn read(text: &str) -> Option<i32> {
        i32::try_from(read_signed(text)?).ok()
    }
}

impl ReadNumber for i64 {
    ghost is_text = { IsSigned w64 };

    ghost is_plain = { signed_plain w64 };

    fn read(text: &str) -> Option<i64> {
        read_signed(text)
    }
}

impl ReadNumber for isize {
    ghost is_text = { IsSigned w64 };

    ghost is_plain = { signed_plain w64 };

    fn read(text: &str) -> Option<isize> {
        isize::try_from(read_signed(text)?).ok()
    }
}
