//! Property tests: a property is checked on many generated values. The first failing case must be
//! found, identified by its number, and checked again on its own.
//!
//! Cases are numbered from 0. Case n draws its value from a generator of its own, whose seed is
//! word n (counted from 0) of the `WyRand` stream of the run's seed. A word is a random number of
//! 64 bits.
ghost use Rattle.std.specs.Prelude.{◌≡◌, ◌<◌, ℕ, Bool, true, false, MatchOption};
ghost use Rattle.nanorand_users.specs.Cases.{case_seed};

use nanorand::laws::wyrand_cycle;
use nanorand::{RandomGen, Rng, WyRand};

/// A property that every value of a type should have.
pub trait Property<T> {
    // Whether the property holds for a value.
    ghost holds: { Self → T → Bool };

    /// Checks the property for a value.
    fn check(&self, value: &T) -> bool
        ensures { result ≡ holds self.now value.now };
}

/// Returns the number of the first failing case among the cases below `cases`, or `None` if the
/// property holds in all of them.
pub fn first_failure<P: Property<T>, T: RandomGen<WyRand, 8> + Drop>(
    property: &P,
    seed: u64,
    cases: u64,
) -> Option<u64>
    ensures { let passes = λ (number : ℕ). P.holds property.now (T.value (case_seed seed number)) in
        MatchOption result ((number : ℕ) → number < cases → passes number ≡ true)
        (λ failed. (failed < cases) × (passes failed ≡ false)
        × ((number : ℕ) → number < failed → passes number ≡ true)) }
{
    wyrand_cycle();
    let mut stream = WyRand::new_seed(seed);
    for number in 0..cases {
        let mut case = WyRand::new_seed(stream.generate());
        let value = case.generate::<T>();
        if !property.check(&value) {
            return Some(number);
        }
    }
    None
}

/// Returns the value of a case, which depends only on the run's seed and the case's number.
pub fn value_of_case<T: RandomGen<WyRand, 8>>(seed: u64, number: u64) -> T
    ensures { result ≡ T.value (case_seed seed number) }
{
    let mut stream = WyRand::new_seed(seed);
    stream.jump(number);
    let mut case = WyRand::new_seed(stream.generate());
    case.generate()
}

/// Checks one case again. Returns whether the property holds for its value.
pub fn check_again<P: Property<T>, T: RandomGen<WyRand, 8> + Drop>(
    property: &P,
    seed: u64,
    number: u64,
) -> bool
    ensures { result ≡ P.holds property.now (T.value (case_seed seed number)) }
{
    property.check(&value_of_case(seed, number))
}

/// Returns the number and the value of the first failing case, or `None` if the property holds in
/// all cases.
pub fn failing_value<P: Property<T>, T: RandomGen<WyRand, 8> + Drop>(
    property: &P,
    seed: u64,
    cases: u64,
) -> Option<(u64, T)>
    ensures { let passes = λ (number : ℕ). P.holds property.now (T.value (case_seed seed number)) in
        MatchOption result ((number : ℕ) → number < cases → passes number ≡ true)
        (λ found. (found.0 < cases) × (found.1 ≡ T.value (case_seed seed found.0))
        × (P.holds property.now found.1 ≡ false)
        × ((number : ℕ) → number < found.0 → passes number ≡ true)) }
{
    let number = first_failure::<P, T>(property, seed, cases)?;
    Some((number, value_of_case(seed, number)))
}

/// Finds the first failing case and checks it again. Returns `Some(false)`, since it fails again,
/// or `None` if the property holds in all cases.
pub fn failure_again<P: Property<T>, T: RandomGen<WyRand, 8> + Drop>(
    property: &P,
    seed: u64,
    cases: u64,
) -> Option<bool>
    ensures { let passes = λ (number : ℕ). P.holds property.now (T.value (case_seed seed number)) in
        MatchOption result ((number : ℕ) → number < cases → passes number ≡ true)
        (λ held. (held ≡ false) × ((number : ℕ) × (number < cases) × (passes number ≡ false))) }
{
    let number = first_failure::<P, T>(property, seed, cases)?;
    Some(check_again::<P, T>(property, seed, number))
}
