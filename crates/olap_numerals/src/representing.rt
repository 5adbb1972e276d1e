// The numbers that stand for all.
ghost use Rattle.std.specs.Prelude.{◌↔◌, ◌≡◌, ◌⊎◌, ◌∷◌, [], ℤ, Contains, IfOk, OnOk, Some, fold};
ghost use Rattle.std.specs.Int.{int_min};
ghost use Rattle.olap_numerals.specs.Numerals.{IsSmall};
ghost use Rattle.olap_numerals.specs.Representatives.{AreRepresentatives, AreSmall, IsLastNear, IsNumberName, IsUpTo, least as least_in};

use crate::numbers::MOST_NUMBER;
use olap_base::Memory;
use std::alloc::Global;

// The least of a number and others.
fn least_of(first: i64, rest: &[i64]) -> i64
    ensures { result ≡ fold int_min first rest.now }
{
    let mut least = first;
    'numbers: for n in rest {
        least = least.min(*n);
    }
    least
}

// The least of the numbers.
fn least(numbers: &[i64]) -> Option<i64>
    ensures { result ≡ least_in numbers.now }
{
    match numbers.split_first() {
        Some((first, rest)) => Some(least_of(*first, rest)),
        None => None,
    }
}

// The number, and one more, where that is within the bounds.
fn enter(numbers: &mut Vec<i64>, n: i64) -> Result<(), Memory>
    requires { IsSmall n }
    ensures { OnOk result ((a : ℤ) → Contains numbers.new.items a
        ↔ (Contains numbers.old.items a ⊎ IsUpTo (n ∷ []) a)) }
{
    numbers.push(n)?;
    if n < MOST_NUMBER {
        numbers.push(n + 1)?;
    }
    Ok(())
}

// One less than the least, where that is within the bounds, or 0 if there is none.
fn enter_last(numbers: &mut Vec<i64>, least: Option<i64>) -> Result<(), Memory>
    requires { (n : ℤ) → least ≡ Some n → IsSmall n }
    ensures { OnOk result ((a : ℤ) → Contains numbers.new.items a
        ↔ (Contains numbers.old.items a ⊎ IsLastNear least a)) }
{
    match least {
        Some(n) => {
            if n > -MOST_NUMBER {
                numbers.push(n - 1)?;
            }
            Ok(())
        }
        None => {
            numbers.push(0)?;
            Ok(())
        }
    }
}

// The numbers near the constants, in some order.
fn near(alloc: Global, constants: &[i64]) -> Result<Vec<i64>, Memory>
    requires { AreSmall constants.now }
    ensures { IfOk result (λ v. (a : ℤ) → Contains v.items a ↔ IsNumberName constants.now a) }
{
    let mut numbers = Vec::new(alloc);
    'constants: for n in constants {
        enter(&mut numbers, *n)?;
    }
    enter_last(&mut numbers, least(constants))?;
    Ok(numbers)
}

/// The numbers that answer every comparison with the constants as all numbers do, ascending.
pub fn representatives(alloc: Global, constants: &[i64]) -> Result<Vec<i64>, Memory>
    requires { AreSmall constants.now }
    ensures { IfOk result (λ v. AreRepresentatives constants.now v.items) }
{
    let mut numbers = near(alloc, constants)?;
    numbers.sort_unstable();
    numbers.dedup();
    Ok(numbers)
}
