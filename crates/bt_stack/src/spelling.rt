//! The functions that write a number as a text.

ghost use Rattle.std.specs.Prelude.{◌≡◌};
ghost use Rattle.bt_actions.specs.Numbers.{ascii_text};
ghost use Rattle.bt_actions.specs.inner.Rows.{digits_text};

use crate::forms::OfNumberToText;
use bt_actions::Complaint;
use itoa::Buffer;
use std::alloc::AllocError;

/// `int.to.chr$`.
pub struct IntToChr;

impl OfNumberToText for IntToChr {
    ghost value = { ascii_text };

    fn write(number: i32, page: &mut Vec<u8>) -> Result<Option<Complaint>, AllocError> {
        if 0 <= number && number < 128 {
            page.push(number as u8)?;
            Ok(None)
        } else {
            Ok(Some(Complaint::NotAscii(number)))
        }
    }
}

/// `int.to.str$`.
pub struct IntToStr;

impl OfNumberToText for IntToStr {
    ghost value = { digits_text };

    fn write(number: i32, page: &mut Vec<u8>) -> Result<Option<Complaint>, AllocError> {
        page.extend_from_slice(Buffer::new().format(number).as_bytes())?;
        Ok(None)
    }
}
