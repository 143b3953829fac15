//! The initial state of ChaCha, and the counter in a state.
ghost use Rattle.std.specs.Prelude.{◌≡◌, ◌+◌, ◌/◌, ◌%◌, ◌^◌, ◌<◌, ◌≤◌, ◌↔◌, length, drop, IsTrue};
ghost use Rattle.std.specs.Bool.{OnTrue, OnFalse};
ghost use Rattle.std.specs.Int.{w32, from_le_bytes};
ghost use Rattle.nanorand.specs.generators.ChaCha.{initial_state, counter, with_counter};

/// Returns the state of a key and a nonce, with the counter 0.
///
/// Words 0 to 3 are the ASCII text `expand 32-byte k`, words 4 to 11 the key, words 12 and 13 the
/// counter, and words 14 and 15 the nonce. Each word is four bytes, in little-endian order.
pub fn chacha_init(key: [u8; 32], nonce: [u8; 8]) -> [u32; 16]
    ensures { result ≡ initial_state key nonce }
{
    [
        0x6170_7865,
        0x3320_646e,
        0x7962_2d32,
        0x6b20_6574,
        read_word(&key, 0),
        read_word(&key, 4),
        read_word(&key, 8),
        read_word(&key, 12),
        read_word(&key, 16),
        read_word(&key, 20),
        read_word(&key, 24),
        read_word(&key, 28),
        0,
        0,
        read_word(&nonce, 0),
        read_word(&nonce, 4),
    ]
}

#[inline]
fn read_word(bytes: &[u8], at: usize) -> u32
    requires { at + 4 ≤ length bytes.now }
    ensures { result ≡ from_le_bytes w32 (drop at bytes.now) }
{
    u32::from_le_bytes([bytes[at], bytes[at + 1], bytes[at + 2], bytes[at + 3]])
}

/// Adds 1 to the counter and returns true. Word 12 is the low half of the counter, and word 13 the
/// high half.
///
/// At the greatest counter, 2^64 - 1, it returns false and changes nothing.
#[inline]
pub fn chacha_increment_counter(state: &mut [u32; 16]) -> bool
    ensures more { IsTrue result ↔ (counter state.old + 1 < 2 ^ 64) }
    ensures next { OnTrue result (state.new ≡ with_counter state.old (counter state.old + 1)) }
    ensures last { OnFalse result (state.new ≡ state.old) }
{
    match counter(state).checked_add(1) {
        Some(next) => {
            set_counter(state, next);
            true
        }
        None => false,
    }
}

#[inline]
pub(crate) fn counter(state: &[u32; 16]) -> u64
    ensures { result ≡ counter state.now }
{
    u64::from(state[12]) | u64::from(state[13]) << 32
}

#[inline]
pub(crate) fn set_counter(state: &mut [u32; 16], counter: u64)
    ensures { state.new ≡ with_counter state.old counter }
{
    state[12] = (counter & 0xffff_ffff) as u32;
    state[13] = (counter >> 32) as u32;
}

#[inline(always)]
pub(crate) fn low(n: u64) -> u32
    ensures { result ≡ n % 2 ^ 32 }
{
    (n & 0xffff_ffff) as u32
}

#[inline(always)]
pub(crate) fn high(n: u64) -> u32
    ensures { result ≡ n / 2 ^ 32 }
{
    (n >> 32) as u32
}
