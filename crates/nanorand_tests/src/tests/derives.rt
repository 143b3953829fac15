//! The derived `Clone`, `Copy`, `PartialEq` and `Debug` of the small types, and the texts of
//! errors.

use crate::comparing::{debug_is, equal, equal_at};
use crate::tests::texts::has_texts;
use nanorand::PastPeriod;
use nanorand::buffer::{RestTooLong, TextRefused};
use nanorand::choices::weighted::WeightError;
use nanorand::entropy::EntropyError;
use nanorand::replay::{Answer, Kind};
use nanorand::shuffles::NotArrangement;
use nanorand::values::RangeError;
use std::alloc::AllocError;
use std::fmt::{Debug, Display};
use std::process::Abort;
use std::test::Fail;

// Each variant of `Kind` and its text.
const KINDS: [(Kind, &str); 13] = [
    (Kind::I8, "I8"),
    (Kind::I16, "I16"),
    (Kind::I32, "I32"),
    (Kind::I64, "I64"),
    (Kind::I128, "I128"),
    (Kind::Isize, "Isize"),
    (Kind::U8, "U8"),
    (Kind::U16, "U16"),
    (Kind::U32, "U32"),
    (Kind::U64, "U64"),
    (Kind::U128, "U128"),
    (Kind::Usize, "Usize"),
    (Kind::Bool, "Bool"),
];

const ANSWERS: [(Answer, &str); 11] = [
    (Answer::Unsigned(0), "Unsigned(0)"),
    (Answer::Unsigned(1), "Unsigned(1)"),
    (
        Answer::Unsigned(u128::MAX),
        "Unsigned(340282366920938463463374607431768211455)",
    ),
    (Answer::Signed(0), "Signed(0)"),
    (Answer::Signed(-1), "Signed(-1)"),
    (
        Answer::Signed(i128::MIN),
        "Signed(-170141183460469231731687303715884105728)",
    ),
    (Answer::Truth(false), "Truth(false)"),
    (Answer::Truth(true), "Truth(true)"),
    (Answer::Empty, "Empty"),
    (Answer::Exhausted, "Exhausted"),
    (Answer::Shuffled, "Shuffled"),
];

// The `Debug` and the `Display` text of each error.
const RANGE_ERRORS: [(RangeError, &str, &str); 2] = [
    (RangeError::Empty, "Empty", "there is nothing to draw from"),
    (
        RangeError::Exhausted,
        "Exhausted",
        "128 words in a row were rejected",
    ),
];

const WEIGHT_ERRORS: [(WeightError, &str, &str); 3] = [
    (WeightError::NoWeight, "NoWeight", "no item has a weight"),
    (
        WeightError::TooHeavy,
        "TooHeavy",
        "the weights add up to 2^64 or more",
    ),
    (
        WeightError::Exhausted,
        "Exhausted",
        "128 words in a row were rejected",
    ),
];

const ENTROPY_ERRORS: [(EntropyError, &str, &str); 3] = [
    (
        EntropyError::Short,
        "Short",
        "the entropy reader ended early",
    ),
    (EntropyError::Fault, "Fault", "the entropy reader failed"),
    (
        EntropyError::Unavailable,
        "Unavailable",
        "no entropy source is available",
    ),
];

const TEXT_REFUSED: [(TextRefused, &str, &str); 1] = [(
    TextRefused,
    "TextRefused",
    "a generator cannot be read into a string",
)];

const REST_TOO_LONG: [(RestTooLong, &str, &str); 1] = [(
    RestTooLong,
    "RestTooLong",
    "a buffer holds less than a block",
)];

const NOT_ARRANGEMENT: [(NotArrangement, &str, &str); 1] = [(
    NotArrangement,
    "NotArrangement",
    "the list is no arrangement",
)];

const PAST_PERIOD: [(PastPeriod, &str, &str); 1] = [(
    PastPeriod,
    "PastPeriod",
    "the part ends past the period of the generator",
)];

// A copy and a clone equal the value, and its `Debug` text is this one. The value equals the value
// of another case only if `same` says so.
fn check<T: Copy + Eq + Debug + Drop>(
    rt: &(impl Abort + AllocGlobal),
    value: T,
    text: &str,
    other: T,
    same: bool,
) -> Result<(), AllocError> {
    let copy = value;
    equal(rt, value.clone()?, copy);
    debug_is(rt, &value, text)?;
    equal_at(rt, value == other, same, text);
    equal_at(rt, value != other, !same, text);
    Ok(())
}

// Checks each pair of cases: the value of the first with its text, against the value of the second.
fn check_values<T: Copy + Eq + Debug + Drop>(
    rt: &(impl Abort + AllocGlobal),
    cases: &[(T, &str)],
) -> Result<(), AllocError> {
    for (index, (value, text)) in cases.iter().enumerate() {
        for (other_index, (other, _)) in cases.iter().enumerate() {
            check(rt, *value, *text, *other, index == other_index)?;
        }
    }
    Ok(())
}

fn check_errors<T: Copy + Eq + Debug + Display + Drop>(
    rt: &(impl Abort + AllocGlobal),
    cases: &[(T, &str, &str)],
) -> Result<(), AllocError> {
    for (index, (value, debug, display)) in cases.iter().enumerate() {
        has_texts(rt, value, *debug, *display)?;
        for (other_index, (other, _, _)) in cases.iter().enumerate() {
            check(rt, *value, *debug, *other, index == other_index)?;
        }
    }
    Ok(())
}

#[test]
fn of_kinds_and_answers(rt: HostRuntime) -> Result<(), Fail> {
    check_values(&rt, &KINDS)?;
    check_values(&rt, &ANSWERS)?;
    Ok(())
}

#[test]
fn of_errors(rt: HostRuntime) -> Result<(), Fail> {
    check_errors(&rt, &RANGE_ERRORS)?;
    check_errors(&rt, &WEIGHT_ERRORS)?;
    check_errors(&rt, &ENTROPY_ERRORS)?;
    check_errors(&rt, &TEXT_REFUSED)?;
    check_errors(&rt, &REST_TOO_LONG)?;
    check_errors(&rt, &NOT_ARRANGEMENT)?;
    check_errors(&rt, &PAST_PERIOD)?;
    Ok(())
}
