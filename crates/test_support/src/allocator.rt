//! An allocator for tests, which counts the allocations requested and fails at chosen ones.
ghost use Rattle.std.specs.Prelude.{◌≡◌, ◌-◌, ◌^◌};

use std::alloc::{AllocError, Allocator};
use std::cell::Cell;

// Counts the requests. Those with the numbers `first` to `last`, counted from 1, are refused.
#[derive(Drop)]
struct Turns {
    counted: Cell<u64>,
    first: u64,
    last: u64,
}

impl Turns {
    fn refusing(first: u64, last: u64) -> Turns
        ensures { (result.first ≡ first) × (result.last ≡ last) }
    {
        Turns {
            counted: Cell::new(0),
            first,
            last,
        }
    }

    // Counts a request, and returns whether it is refused.
    fn is_refused(&self) -> bool {
        let turn = self.counted.get().saturating_add(1);
        self.counted.set(turn);
        self.first <= turn && turn <= self.last
    }
}

/// An allocator that passes requests on to an inner allocator, except for those that it refuses:
/// these fail.
///
/// A test refuses the first request, then the second, and so on, until a run meets no refusal.
/// Which requests are refused is tested, not proved, since a cell has no contract.
#[derive(Drop)]
pub struct Refusing<B: Allocator> {
    inner: B,
    turns: Turns,
}

impl<B: Allocator> Refusing<B> {
    /// Creates an allocator that refuses only request `number`, counted from 1. If `number` is 0,
    /// it refuses none.
    pub fn nth(inner: B, number: u64) -> Refusing<B>
        ensures inner { result.inner ≡ inner }
        ensures turns { (result.turns.first ≡ number) × (result.turns.last ≡ number) }
    {
        Refusing {
            inner,
            turns: Turns::refusing(number, number),
        }
    }

    /// Creates an allocator that refuses request `number`, counted from 1, and all later ones.
    pub fn from_nth(inner: B, number: u64) -> Refusing<B>
        ensures inner { result.inner ≡ inner }
        ensures turns { (result.turns.first ≡ number) × (result.turns.last ≡ 2 ^ 64 - 1) }
    {
        Refusing {
            inner,
            turns: Turns::refusing(number, u64::MAX),
        }
    }

    /// Returns the number of requests so far, including the refused ones.
    pub fn requests(&self) -> u64 {
        self.turns.counted.get()
    }
}

// A block is freed with the inner allocator's right to free it.
unsafe impl<B: Allocator> Allocator for Refusing<B> {
    ghost dealloc_token = { λ heap ty ptr. B.dealloc_token heap.inner ty ptr };

    fn allocate(&self, size: usize, align: usize) -> Result<*mut u8, AllocError> {
        if self.turns.is_refused() {
            return Err(AllocError);
        }
        self.inner.allocate(size, align)
    }

    unsafe fn deallocate(&self, ptr: *mut u8, size: usize, align: usize) {
        self.inner.deallocate(ptr, size, align);
    }
}
