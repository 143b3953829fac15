//! Clones that are not equal to their originals, and a buffer around such a generator.

use crate::comparing::{equal, equal_at};
use crate::draw_helpers::buffered_byte;
use nanorand::BufferedRng;
use test_support::Forking;

// `clone` fails for the last stream, and for a buffer around it with any number of buffered bytes.
// It succeeds for all other streams.
#[test]
fn a_buffer_is_cloned_where_its_generator_is(rt: HostRuntime) {
    for stream in 0..=255 {
        let mut rng = BufferedRng::new(Forking::new(stream));
        for buffered in [0, 7, 6, 5, 4, 3, 2, 1] {
            equal(&rt, rng.buffered(), buffered);
            equal_at(&rt, rng.clone().is_ok(), stream < 255, stream);
            let _ = buffered_byte(&mut rng);
        }
    }
}
