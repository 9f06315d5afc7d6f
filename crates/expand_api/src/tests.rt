//! Codes of numbers and numbers of codes, and what the definitions give at worked lists.

ghost use Rattle.std.specs.Prelude.{◌≡◌, ◌≤◌, ◌^◌, pos, negsuc, ◌-ℤ◌, ◌≤ℤ◌, ◌<ℤ◌, length};
ghost use Rattle.expand_api.specs.Digits.Bounds.{fitted};
ghost use Rattle.expand_api.specs.Digits.Products.{product, product_of_absolutes, signed_product};
ghost use Rattle.expand_api.specs.Digits.Quotients.{quotient, remainder};
ghost use Rattle.expand_api.specs.Digits.Sums.{absolute, difference};
ghost use Rattle.expand_api.specs.Digits.Values.{natural, signed, signed_digits};

use crate::{code_of, digits_of, natural_of, number_of};
use std::alloc::Global;
use std::process::Abort;
use std::test::Fail;

/// Quotients of numbers of four digits, truncated toward zero, and by 0.
fn quotients()
    ensures halved { signed (quotient (signed_digits 4 (negsuc 6)) (signed_digits 4 (pos 2)))
        ≡ negsuc 2 }
    ensures lowest { signed (quotient (signed_digits 4 (negsuc 7)) (signed_digits 4 (negsuc 0)))
        ≡ pos 8 }
    ensures by_zero { signed (quotient (signed_digits 4 (pos 5)) (signed_digits 4 (pos 0)))
        ≡ pos 0 }
{}

/// Remainders of numbers of four digits, with the dividend's sign, and by 0.
fn remainders()
    ensures halved { signed (remainder (signed_digits 4 (negsuc 6)) (signed_digits 4 (pos 2)))
        ≡ negsuc 0 }
    ensures by_negative { signed (remainder (signed_digits 4 (pos 7)) (signed_digits 4 (negsuc 1)))
        ≡ pos 1 }
    ensures by_zero { signed (remainder (signed_digits 4 (pos 5)) (signed_digits 4 (pos 0)))
        ≡ pos 5 }
{}

/// Products and other values of numbers of four digits, and a difference that three can't hold.
fn others()
    ensures by_rows { signed (product (signed_digits 4 (negsuc 2)) (signed_digits 4 (pos 2)))
        ≡ negsuc 5 }
    ensures by_sign_row { signed (signed_product (signed_digits 4 (pos 2)) (signed_digits 3 (negsuc 2)))
        ≡ negsuc 5 }
    ensures by_absolutes { signed (product_of_absolutes (signed_digits 4 (negsuc 2)) (signed_digits 3 (negsuc 1)))
        ≡ pos 6 }
    ensures lowest { natural (absolute (signed_digits 4 (negsuc 7))) ≡ 8 }
    ensures fitted { signed (fitted (signed_digits 4 (negsuc 1)) (signed_digits 4 (pos 3)) (signed_digits 4 (pos 4)))
        ≡ negsuc 1 }
    ensures wrapped { signed (difference (signed_digits 3 (pos 3)) (signed_digits 3 (negsuc 0)))
        ≡ negsuc 3 }
{}

#[test]
fn definitions_give_the_worked_values() {
    quotients();
    remainders();
    others();
}

/// Codes of a number both ways.
fn expect_code(
    rt: &impl Abort,
    alloc: Global,
    number: i128,
    lo: i128,
    want: &[bool],
) -> Result<(), Fail>
    requires few { length want.now ≤ 64 }
    requires low { lo ≤ℤ pos (2 ^ 126) }
    requires above { lo ≤ℤ number }
    requires below { (number -ℤ lo) <ℤ pos (2 ^ length want.now) }
{
    let code = code_of(alloc, number, lo, want.len() as u32)?;
    assert_eq!(rt; code.as_slice(), want);
    assert_eq!(rt; number_of(want, lo), number);
    Ok(())
}

#[test]
fn codes_are_written_and_read(rt: HostRuntime) -> Result<(), Fail> {
    expect_code(&rt, rt.alloc(), 4, 4, &[])?;
    expect_code(&rt, rt.alloc(), 9, 0, &[true, false, false, true])?;
    expect_code(&rt, rt.alloc(), 7, -2, &[true, false, false, true])?;
    expect_code(&rt, rt.alloc(), -3, -4, &[true, false])?;
    expect_code(&rt, rt.alloc(), 3, -4, &[true, true, true])?;
    Ok(())
}

#[test]
fn lists_of_three_digits(rt: HostRuntime) -> Result<(), Fail> {
    for number in 0..8 {
        let digits = digits_of(rt.alloc(), number, 3)?;
        assert_eq!(rt; digits.len(), 3);
        assert_eq!(rt; natural_of(&digits), number);
    }
    Ok(())
}
