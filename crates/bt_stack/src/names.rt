//! The functions on lists of names.

ghost use Rattle.std.specs.Prelude.{◌≡◌, None, IfOk};
ghost use Rattle.bt_actions.specs.Arguments.{as_number, as_text, taken_three};
ghost use Rattle.bt_actions.specs.Given.{Errs, valued, empty_item};
ghost use Rattle.bt_actions.specs.Names.{name_formatted};
ghost use Rattle.bt_actions.specs.inner.Rows.{names_counted};
ghost use Rattle.bt_names.specs.FormattedName.{formatted_name, IsFormatFault};
ghost use Rattle.bt_style.specs.declared.builtin.Builtin.TheVariants as builtin;
ghost use Rattle.bt_stack.specs.View.{Acts};
ghost use Rattle.bt_stack.specs.inner.Part.{name_asked};

use crate::forms::{OfTextToNumber, answer_empty_in_error, answer_page};
use crate::state::State;
use crate::texts::count_fitting;
use bt_actions::{Complaint, Flow};
use bt_names::{FormatFault, ListedName, Written, count};
use bt_style::Builtin;
use bt_text::{Bytes, TEXT_BYTES};
use std::alloc::{AllocError, Global};

/// `num.names$`.
pub struct NumNames;

impl OfTextToNumber for NumNames {
    ghost value = { names_counted };

    fn of(_alloc: Global, text: &[u8]) -> Result<Result<i32, Complaint>, AllocError> {
        Ok(count_fitting(Builtin::NumNames, count(text)))
    }
}

fn fault_complaint(
    alloc: Global,
    names: &[u8],
    number: i32,
    pattern: &[u8],
    fault: FormatFault,
) -> Result<Complaint, AllocError>
    requires { IsFormatFault (formatted_name names.now number pattern.now) fault }
    ensures { IfOk result (λ complaint.
        name_formatted (names.now, number, pattern.now) ≡ Errs complaint empty_item) }
{
    match fault {
        FormatFault::NoSuchName => {
            let names = Bytes::copied(alloc, names)?;
            Ok(Complaint::NoSuchName(number, names))
        }
        FormatFault::TooManyCommas => {
            let names = Bytes::copied(alloc, names)?;
            Ok(Complaint::TooManyCommas(number, names))
        }
        FormatFault::PatternFault(place) => {
            let pattern = Bytes::copied(alloc, pattern)?;
            Ok(Complaint::PatternFault(pattern, place))
        }
        FormatFault::OutOfMemory => Err(AllocError),
    }
}

/// `format.name$` of other values.
#[cold]
#[tactic(auto, using(crate::proofs::FormLemmas::three_refused))]
fn refuse_name(state: &mut State) -> Result<Flow, AllocError>
    requires { name_asked state.old.stack.items ≡ None }
    ensures { IfOk result (Acts (λ world.
        valued name_formatted empty_item (taken_three builtin.FormatName as_text as_number as_text world))
        state.old state.new) }
{
    let wrong = state.stack.is_no_text(0)
        || state.stack.is_no_number(1)
        || state.stack.is_no_text(2);
    state.refuse_three(Builtin::FormatName, wrong)?;
    state.push_given(b"")
}

/// `format.name$`. A name that is too long for the stack isn't written to its end, since it isn't put there.
#[inline(never)]
pub fn format_name(state: &mut State, alloc: Global) -> Result<Flow, AllocError>
    ensures { IfOk result (Acts (λ world.
        valued name_formatted empty_item (taken_three builtin.FormatName as_text as_number as_text world))
        state.old state.new) }
{
    let mut page = state.stack.take_page(alloc);
    match state.stack.number_at(1) {
        Some(number) => match (state.stack.text_at(2), state.stack.text_at(0)) {
            (Some(names), Some(pattern)) => {
                let name = ListedName { names, number };
                match name.push_formatted(state.patterns, &mut page, pattern, TEXT_BYTES) {
                    Ok(written) => match written {
                        Written::Whole => answer_page(state, 3, page),
                        Written::Longer => {
                            state.stack.drop_tops(3);
                            state.pass_text_limit()
                        }
                    },
                    Err(fault) => {
                        let complaint = fault_complaint(alloc, names, number, pattern, fault)?;
                        answer_empty_in_error(state, 3, complaint)
                    }
                }
            }
            _ => refuse_name(state),
        },
        None => refuse_name(state),
    }
}
