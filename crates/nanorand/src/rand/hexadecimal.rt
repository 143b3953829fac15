// 128-bit numbers in hexadecimal.
ghost use Rattle.std.specs.Prelude.{Some};
ghost use Rattle.nanorand.specs.generators.DebugTexts.{hexadecimal};

use std::fmt;

// A number that is displayed as lower-case hexadecimal digits. It is written as two halves, because
// the contract of std does not say what `{:x}` writes for a 128-bit integer.
#[derive(Drop)]
pub(crate) struct Hexadecimal(pub(crate) u128);

impl fmt::Display for Hexadecimal {
    ghost output = { λ number. Some (hexadecimal number.0) };

    fn fmt<W: fmt::Write>(&self, f: &mut fmt::Formatter<W>) -> fmt::Result {
        let high = (self.0 >> 64) as u64;
        let low = (self.0 % (1 << 64)) as u64;
        if high == 0 {
            write!(f, "{low:x}")
        } else {
            write!(f, "{high:x}{low:016x}")
        }
    }
}
