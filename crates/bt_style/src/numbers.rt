//! The numbers of the names of one list, among some names.

ghost use Rattle.std.specs.Prelude.{◌≡◌, IfOk, filter_map};
ghost use Rattle.bt_style.specs.inner.Numbers.{number_in};

use crate::names::Names;
use crate::style::Target;
use std::alloc::{AllocError, Global};

impl Target {
    fn number_in(self, list: Names) -> Option<usize>
        ensures { result ≡ number_in list self }
    {
        match (list, self) {
            (Names::Fields, Target::Field(number))
            | (Names::EntryNumbers, Target::EntryNumber(number))
            | (Names::EntryTexts, Target::EntryText(number))
            | (Names::GlobalNumbers, Target::GlobalNumber(number))
            | (Names::GlobalTexts, Target::GlobalText(number)) => Some(number),
            _ => None,
        }
    }
}

/// The numbers of the names of a list.
pub fn numbers_of(alloc: Global, names: &[Target], list: Names) -> Result<Vec<usize>, AllocError>
    ensures { IfOk result (λ numbers. numbers.items ≡ filter_map (number_in list) names.now) }
{
    names
        .iter()
        .filter_map(|name| name.number_in(list))
        .collect(alloc)
}
