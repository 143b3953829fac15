//! The state that ChaCha with 8, 12 and 20 rounds shares.
ghost use Rattle.std.specs.Prelude.{◌≡◌};

use nanorand_calls::chacha::ChaChaState;

/// Returns the state of ChaCha with this key and nonce, whose next block is the first one. Without
/// a nonce of your own, pass 8 zeros.
#[unsafe(no_mangle)]
pub extern "C" fn nanorand_v1_chacha_new_key(key: &[u8; 32], nonce: &[u8; 8]) -> ChaChaState
    ensures key { result.key ≡ key.now }
    ensures nonce { result.nonce ≡ nonce.now }
    ensures counter { result.counter ≡ 0 }
{
    ChaChaState {
        key: *key,
        nonce: *nonce,
        counter: 0,
    }
}
