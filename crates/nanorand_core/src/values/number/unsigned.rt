//! The unsigned types: the rank of a number is the number itself.
ghost use Rattle.std.specs.Prelude.{nat_le, nat_lt, refl};
ghost use Rattle.nanorand_core.specs.values.Range.{unsigned_number, unsigned_rank, HasUnsigned};
ghost use Rattle.nanorand_core.specs.support.BoundLemmas.{unsigned_has_number, unsigned_has_place};
ghost use Rattle.nanorand_core.specs.support.NumberOrderLemmas.{width_8, width_16, width_32, width_64};

use super::Number;

impl Number for u8 {
    const BITS: u32 = 8;

    ghost BITS = { 8 };

    ghost number = { unsigned_number };

    ghost rank = { unsigned_rank };

    ghost le = { nat_le };

    ghost lt = { nat_lt };

    ghost has_number = { HasUnsigned 8 };

    ghost width = { width_8 };

    ghost ranked = { λ k fits. refl };

    ghost le_rises = { λ j k. refl };

    ghost lt_rises = { λ j k. refl };

    ghost has_place = { unsigned_has_place 8 };

    ghost knows_place = { unsigned_has_number 8 };

    #[inline]
    fn place(self) -> u64 {
        u64::from(self)
    }

    #[inline]
    fn at_place(place: u64) -> u8 {
        place as u8
    }
}

impl Number for u16 {
    const BITS: u32 = 16;

    ghost BITS = { 16 };

    ghost number = { unsigned_number };

    ghost rank = { unsigned_rank };

    ghost le = { nat_le };

    ghost lt = { nat_lt };

    ghost has_number = { HasUnsigned 16 };

    ghost width = { width_16 };

    ghost ranked = { λ k fits. refl };

    ghost le_rises = { λ j k. refl };

    ghost lt_rises = { λ j k. refl };

    ghost has_place = { unsigned_has_place 16 };

    ghost knows_place = { unsigned_has_number 16 };

    #[inline]
    fn place(self) -> u64 {
        u64::from(self)
    }

    #[inline]
    fn at_place(place: u64) -> u16 {
        place as u16
    }
}

impl Number for u32 {
    const BITS: u32 = 32;

    ghost BITS = { 32 };

    ghost number = { unsigned_number };

    ghost rank = { unsigned_rank };

    ghost le = { nat_le };

    ghost lt = { nat_lt };

    ghost has_number = { HasUnsigned 32 };

    ghost width = { width_32 };

    ghost ranked = { λ k fits. refl };

    ghost le_rises = { λ j k. refl };

    ghost lt_rises = { λ j k. refl };

    ghost has_place = { unsigned_has_place 32 };

    ghost knows_place = { unsigned_has_number 32 };

    #[inline]
    fn place(self) -> u64 {
        u64::from(self)
    }

    #[inline]
    fn at_place(place: u64) -> u32 {
        place as u32
    }
}

impl Number for u64 {
    const BITS: u32 = 64;

    ghost BITS = { 64 };

    ghost number = { unsigned_number };

    ghost rank = { unsigned_rank };

    ghost le = { nat_le };

    ghost lt = { nat_lt };

    ghost has_number = { HasUnsigned 64 };

    ghost width = { width_64 };

    ghost ranked = { λ k fits. refl };

    ghost le_rises = { λ j k. refl };

    ghost lt_rises = { λ j k. refl };

    ghost has_place = { unsigned_has_place 64 };

    ghost knows_place = { unsigned_has_number 64 };

    #[inline]
    fn place(self) -> u64 {
        self
    }

    #[inline]
    fn at_place(place: u64) -> u64 {
        place
    }
}

impl Number for usize {
    const BITS: u32 = 64;

    ghost BITS = { 64 };

    ghost number = { unsigned_number };

    ghost rank = { unsigned_rank };

    ghost le = { nat_le };

    ghost lt = { nat_lt };

    ghost has_number = { HasUnsigned 64 };

    ghost width = { width_64 };

    ghost ranked = { λ k fits. refl };

    ghost le_rises = { λ j k. refl };

    ghost lt_rises = { λ j k. refl };

    ghost has_place = { unsigned_has_place 64 };

    ghost knows_place = { unsigned_has_number 64 };

    #[inline]
    fn place(self) -> u64 {
        self as u64
    }

    #[inline]
    fn at_place(place: u64) -> usize {
        place as usize
    }
}
