//! Unsigned numbers: decimal digits with a value that fits the type.

ghost use Rattle.draw_core.specs.Numbers.{IsUnsigned};
ghost use Rattle.draw_core.specs.support.PlainTexts.{unsigned_plain};

use super::{ReadNumber, read_unsigned};

impl ReadNumber for u8 {
    ghost is_text = { IsUnsigned 8 };

    ghost is_plain = { unsigned_plain 8 };

    fn read(text: &str) -> Option<u8> {
        u8::try_from(read_unsigned(text)?).ok()
    }
}

impl ReadNumber for u16 {
    ghost is_text = { IsUnsigned 16 };

    ghost is_plain = { unsigned_plain 16 };

    fn read(text: &str) -> Option<u16> {
        u16::try_from(read_unsigned(text)?).ok()
    }
}

impl ReadNumber for u32 {
    ghost is_text = { IsUnsigned 32 };

    ghost is_plain = { unsigned_plain 32 };

    fn read(text: &str) -> Option<u32> {
        u32::try_from(read_unsigned(text)?).ok()
    }
}

impl ReadNumber for u64 {
    ghost is_text = { IsUnsigned 64 };

    ghost is_plain = { unsigned_plain 64 };

    fn read(text: &str) -> Option<u64> {
        read_unsigned(text)
    }
}

impl ReadNumber for usize {
    ghost is_text = { IsUnsigned 64 };

    ghost is_plain = { unsigned_plain 64 };

    fn read(text: &str) -> Option<usize> {
        usize::try_from(read_unsigned(text)?).ok()
    }
}
