// Numbers of 64 bits: sums, differences and products that are refused where they leave them, and the square root. `signed`: a difference as a signed number.
#![tactic(auto)]

ghost use Rattle.std.specs.Prelude.{◌≡◌, min, max};
ghost use Rattle.definitions.specs.Checked.{add64, sub64, mul64};
ghost use Rattle.definitions.specs.Document.Phase0.Helpers.{integer_squareroot};

pub mod signed;

use definitions::Refusal;

// Refusal 5 where the sum is above 2^64 - 1. By the test and not by `checked_add`, which the edit sum_bound could not bend.
pub fn add64(a: u64, b: u64) -> Result<u64, Refusal>
    ensures { result ≡ add64 a b }
{
    if 18446744073709551615 - a < b {
        return Err(Refusal::Overflow);
    }
    Ok(a + b)
}

// Refusal 5 where the difference is below 0.
pub fn sub64(a: u64, b: u64) -> Result<u64, Refusal>
    ensures { result ≡ sub64 a b }
{
    a.checked_sub(b).ok_or(Refusal::Overflow)
}

// Refusal 5 where the product is above 2^64 - 1. Small factors, which most are, are multiplied without the division of the test, as
// `checked_mul` would not; and the edit product_bound bends that test.
pub fn mul64(a: u64, b: u64) -> Result<u64, Refusal>
    ensures { result ≡ mul64 a b }
{
    if a < 4294967296 && b < 4294967296 {
        return Ok(a * b);
    }
    if a == 0 {
        return Ok(0);
    }
    if 18446744073709551615 / a < b {
        return Err(Refusal::Overflow);
    }
    Ok(a * b)
}

pub fn min(a: u64, b: u64) -> u64
    ensures { result ≡ min a b }
{
    if a < b {
        return a;
    }
    b
}

pub fn max(a: u64, b: u64) -> u64
    ensures { result ≡ max a b }
{
    if a < b {
        return b;
    }
    a
}

// Newton's steps down from a power of two that is not below the root. n / r < r tests r * r > n without the product. By the loop and not by
// `isqrt`, which the edit root_of_a_square could not bend.
pub fn integer_sqrt(n: u64) -> u64
    ensures { result ≡ integer_squareroot n }
{
    if n == 0 {
        return 0;
    }
    let mut r = 1u64 << ((65 - u64::leading_zeros(n)) / 2);
    while n / r < r {
        r = (r + n / r) / 2;
    }
    r
}
