//! Digits of numbers and numbers of digits, for values of cells and their codes.

ghost use Rattle.std.specs.Prelude.{◌≡◌, ◌≤◌, ◌^◌, pos, ◌-ℤ◌, ◌≤ℤ◌, ◌<ℤ◌, length, IfOk};
ghost use Rattle.expand_api.specs.Digits.Values.{code, decoded, digits, natural};

use std::alloc::{AllocError, Global};

/// The `count` lowest binary digits of a number, lowest first.
pub fn digits_of(alloc: Global, number: u64, count: u32) -> Result<Vec<bool>, AllocError>
    ensures { IfOk result (λ found. found.items ≡ digits count number) }
{
    let mut found = Vec::with_capacity(alloc, count as usize)?;
    let mut left = number;
    for _i in 0..count {
        found.push(left % 2 == 1)?;
        left /= 2;
    }
    Ok(found)
}

/// The number that binary digits, at most 64, spell without a sign, lowest first.
pub fn natural_of(digits: &[bool]) -> u64
    requires { length digits.now ≤ 64 }
    ensures { result ≡ natural digits.now }
{
    let mut number = 0;
    for (i, digit) in digits.iter().enumerate() {
        if *digit {
            number += 1 << i;
        }
    }
    number
}

/// The code of a number in a cell whose lowest number is `lo` and whose codes have `count` digits.
pub fn code_of(alloc: Global, number: i128, lo: i128, count: u32) -> Result<Vec<bool>, AllocError>
    requires few { count ≤ 64 }
    requires above { lo ≤ℤ number }
    requires below { (number -ℤ lo) <ℤ pos (2 ^ count) }
    ensures { IfOk result (λ found. found.items ≡ code count lo number) }
{
    digits_of(alloc, (number - lo) as u64, count)
}

/// The number of a code in a cell whose lowest number is `lo`.
pub fn number_of(code: &[bool], lo: i128) -> i128
    requires few { length code.now ≤ 64 }
    requires low { lo ≤ℤ pos (2 ^ 126) }
    ensures { result ≡ decoded lo code.now }
{
    lo + i128::from(natural_of(code))
}
