//! The functions on numbers.

ghost use Rattle.std.specs.Prelude.{◌≡◌};
ghost use Rattle.bt_actions.specs.Item.{Num};
ghost use Rattle.bt_actions.specs.Given.{truth};
ghost use Rattle.bt_actions.specs.Numbers.{byte_number};
ghost use Rattle.bt_actions.specs.inner.Rows.{sum_of, difference_of, greater_of, less_of};

use crate::forms::{OfTextToNumber, OfTwoNumbers, fitting};
use bt_actions::Complaint;
use bt_style::Builtin;
use bt_text::Bytes;
use std::alloc::{AllocError, Global};

/// 1 for what holds, else 0.
pub fn truth(holds: bool) -> i32
    ensures { Num result ≡ truth holds }
{
    if holds { 1 } else { 0 }
}

/// `+`.
pub struct Plus;

impl OfTwoNumbers for Plus {
    ghost value = { sum_of };

    fn of(lower: i32, upper: i32) -> Result<i32, Complaint> {
        fitting(Builtin::Plus, i64::from(lower) + i64::from(upper))
    }
}

/// `-`.
pub struct Minus;

impl OfTwoNumbers for Minus {
    ghost value = { difference_of };

    fn of(lower: i32, upper: i32) -> Result<i32, Complaint> {
        fitting(Builtin::Minus, i64::from(lower) - i64::from(upper))
    }
}

/// `>`.
pub struct Greater;

impl OfTwoNumbers for Greater {
    ghost value = { greater_of };

    fn of(lower: i32, upper: i32) -> Result<i32, Complaint> {
        Ok(truth(lower > upper))
    }
}

/// `<`.
pub struct Less;

impl OfTwoNumbers for Less {
    ghost value = { less_of };

    fn of(lower: i32, upper: i32) -> Result<i32, Complaint> {
        Ok(truth(lower < upper))
    }
}

/// `chr.to.int$`.
pub struct ChrToInt;

impl OfTextToNumber for ChrToInt {
    ghost value = { byte_number };

    fn of(alloc: Global, text: &[u8]) -> Result<Result<i32, Complaint>, AllocError> {
        match text {
            [byte] => Ok(Ok(*byte as i32)),
            bytes => {
                let text = Bytes::copied(alloc, bytes)?;
                Ok(Err(Complaint::NotOneCharacter(text)))
            }
        }
    }
}
