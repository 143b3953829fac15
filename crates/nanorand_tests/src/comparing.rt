//! Comparisons for tests, as functions. A test is then proved safe by one call for each comparison,
//! in less than half the time that `assert_eq!` takes.
ghost use Rattle.std.specs.Prelude.{IsTrue};

use std::alloc::AllocError;
use std::fmt::{Debug, Display};
use std::process::Abort;

/// Fails the test unless the values are equal.
pub fn equal<T: PartialEq + Debug + Drop>(rt: &impl Abort, left: T, right: T)
    ensures { IsTrue (T.eq left right) }
{
    assert_eq!(rt; left, right);
}

/// Does the same, with a note that identifies the case.
pub fn equal_at<T: PartialEq + Debug + Drop>(
    rt: &impl Abort,
    left: T,
    right: T,
    note: impl Display + Drop,
)
    ensures { IsTrue (T.eq left right) }
{
    assert_eq!(rt; left, right, "{note}");
}

/// Fails the test unless the `Display` text of the value is this one.
pub fn display_is(
    rt: &(impl Abort + AllocGlobal),
    value: &impl Display,
    text: &str,
) -> Result<(), AllocError> {
    let found = format!(in rt.alloc(); "{value}")?;
    equal(rt, found.as_str(), text);
    Ok(())
}

/// Fails the test unless the `Debug` text of the value is this one.
pub fn debug_is(
    rt: &(impl Abort + AllocGlobal),
    value: &impl Debug,
    text: &str,
) -> Result<(), AllocError> {
    display_is(rt, &format_args!("{value:?}"), text)
}
