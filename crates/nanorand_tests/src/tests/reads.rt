//! Reads from a buffer.

use crate::comparing::equal;
use nanorand::BufferedRng;
use nanorand::buffer::TextRefused;
use std::io::Read;
use std::test::Fail;
use test_support::Steps;

// `read` fills the slice. `read_to_string` returns an error, and leaves the string and the buffer
// unchanged. `read_to_end` is in `refusals`.
#[test]
fn of_bytes_and_of_text(rt: HostRuntime) -> Result<(), Fail> {
    let mut buffer = BufferedRng::new(Steps::new());
    let mut bytes = [99; 5];
    equal(&rt, buffer.read(&mut bytes)?, 5);
    equal(&rt, bytes, [0, 1, 2, 3, 4]);
    let mut text = String::from_str(rt.alloc(), "as it was")?;
    equal(&rt, buffer.read_to_string(&mut text), Err(TextRefused));
    equal(&rt, text.as_str(), "as it was");
    equal(&rt, (buffer.inner().drawn(), buffer.buffered()), (1, 3));
    Ok(())
}
