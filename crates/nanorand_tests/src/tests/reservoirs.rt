//! A reservoir of the lines of a text.

use crate::comparing::equal;
use nanorand::samples::reservoir;
use test_support::Script;

#[test]
fn lines(rt: HostRuntime) {
    let mut chosen = ["none"; 3];
    let text = "zero\none\ntwo\nthree\nfour";
    let mut rng = Script::new(&[1, u64::MAX]);
    equal(&rt, reservoir(&mut rng, text.lines(), &mut chosen), Ok(3));
    equal(&rt, chosen, ["three", "one", "two"]);
}
