//! Comparisons for tests, as functions. A test is then proved safe by one call for each comparison,
//! in less than half the time that `assert_eq!` takes. A note identifies the case.
ghost use Rattle.std.specs.Prelude.{IsTrue};

use std::fmt::Debug;
use std::process::Abort;

/// Fails the test unless the values are equal.
pub fn equal<T: PartialEq + Debug + Drop>(rt: &impl Abort, left: T, right: T)
    ensures { IsTrue (T.eq left right) }
{
    assert_eq!(rt; left, right);
}

/// Does the same, with a note.
pub fn equal_at<T: PartialEq + Debug + Drop>(rt: &impl Abort, left: T, right: T, note: &impl Debug)
    ensures { IsTrue (T.eq left right) }
{
    assert_eq!(rt; left, right, "{note:?}");
}

/// Fails the test unless the condition holds.
pub fn holds(rt: &impl Abort, condition: bool, note: &impl Debug) {
    assert!(rt; condition, "{note:?}");
}
