//! The version of the library.
ghost use Rattle.std.specs.Prelude.{◌≡◌};

/// Returns the version of the library: 10000 times the major number, plus 100 times the minor
/// number, plus the patch number. Version 1.2.3 would be 10203.
#[unsafe(no_mangle)]
pub extern "C" fn nanorand_v1_version() -> u32
    ensures { result ≡ 10000 }
{
    10_000
}
