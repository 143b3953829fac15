//! Calls that fail after 128 rejected words, which no seed of a generator is known to lead to. All
//! other answers are tested in Rust, and those that `draw` can ask for also by `tests/draw.sh`.

use crate::comparing::equal;
use nanorand::replay::{Answer, Call, Kind, Span, replay};
use std::ops::Bound::Included;
use test_support::Script;

// The next call draws the word after the rejected ones. The items stay as they are.
#[test]
fn rejected_words(rt: HostRuntime) {
    let die = Span::U8(Included(1), Included(6));
    let calls = [Call::Range(die), Call::Shuffle, Call::Gen(Kind::U8)];
    let mut rng = Script::from_block(&[1], 0u64.wrapping_sub(2 * 128));
    let mut items = [7, 8, 9];
    let mut answers = [Answer::Empty; 3];
    replay(&mut rng, &calls, &mut items, &mut answers);
    let wanted = [Answer::Exhausted, Answer::Exhausted, Answer::Unsigned(1)];
    equal(&rt, answers, wanted);
    equal(&rt, (items, rng.drawn()), ([7, 8, 9], 1));
}
