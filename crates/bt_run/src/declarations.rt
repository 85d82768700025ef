//! What a style declares: names of fields, types and macros for the databases, and its variables.

ghost use Rattle.std.specs.Prelude.{◌≡◌, [], pos, map, take, count_by, IfOk};
ghost use Rattle.bt_style.specs.declared.style.Command.{Command as CommandSeen};
ghost use Rattle.bt_style.specs.Program.{Definition, definitions_of, program_of};
ghost use Rattle.bt_run.specs.ReadCommand.{is_definition, declared_before};
ghost use Rattle.bt_run.specs.inner.Cases.{known_macro, blank};

use bt_actions::Variables;
use bt_resolve::{Declared, Macro};
use bt_style::{Action, Command, Function, Style};
use bt_text::{Bytes, Sequence, Shared, Values};
use std::alloc::{AllocError, Global};

#[tactic(auto, unfolding(crate::specs::ReadCommand::is_definition))]
fn is_definition(action: Action) -> bool
    ensures { result ≡ is_definition action }
{
    matches!(action, Action::Function(_))
}

fn definition_count(commands: &[Command]) -> usize
    ensures { result ≡ count_by (λ (c : CommandSeen). is_definition c.action) commands.now }
{
    let mut count = 0;
    'commands: for command in commands {
        if is_definition(command.action) {
            count += 1;
        }
    }
    count
}

fn first<T>(items: &[T], count: usize) -> &[T]
    ensures { result.now ≡ take count items.now }
{
    if count < items.len() {
        items.split_at(count).0
    } else {
        items
    }
}

pub fn copied_texts(alloc: Global, texts: &[Bytes]) -> Result<Sequence<Bytes>, AllocError>
    ensures { IfOk result (λ copies. copies ≡ texts.now) }
{
    let mut copies = Sequence::new(alloc);
    'texts: for text in texts {
        copies.push(Bytes::copied(alloc, text.as_slice())?)?;
    }
    Ok(copies)
}

fn names_of(alloc: Global, functions: &[Function]) -> Result<Sequence<Bytes>, AllocError>
    ensures { IfOk result (λ names. names ≡ map (λ (d : Definition). d.name) (definitions_of functions.now)) }
{
    let mut names = Sequence::new(alloc);
    'functions: for function in functions {
        names.push(Bytes::copied(alloc, function.name.as_slice())?)?;
    }
    Ok(names)
}

fn known_macro(alloc: Global, one: &bt_style::Macro) -> Result<Macro, AllocError>
    ensures { IfOk result (λ known. known ≡ known_macro one.now) }
{
    Ok(Macro {
        name: Bytes::copied(alloc, one.name.as_slice())?,
        value: Bytes::copied(alloc, one.text.as_slice())?,
    })
}

fn known_macros(alloc: Global, macros: &[bt_style::Macro]) -> Result<Sequence<Macro>, AllocError>
    ensures { IfOk result (λ known. known ≡ map known_macro macros.now) }
{
    let mut known = Sequence::new(alloc);
    'macros: for one in macros {
        known.push(known_macro(alloc, one)?)?;
    }
    Ok(known)
}

/// What the style declares before the command of a number: its fields, a type for each function that is defined
/// there, and its macros.
pub fn declared_before(alloc: Global, style: &Style, number: usize) -> Result<Declared, AllocError>
    ensures { IfOk result (λ declared. declared ≡ declared_before number (program_of style.now)) }
{
    let before = first(style.commands.as_slice(), number);
    let functions = first(style.functions.as_slice(), definition_count(before));
    Ok(Declared {
        fields: copied_texts(alloc, style.fields.as_slice())?,
        types: names_of(alloc, functions)?,
        macros: known_macros(alloc, style.macros.as_slice())?,
    })
}

fn zeros(alloc: Global, names: &[Bytes]) -> Result<Values<i32>, AllocError>
    ensures { IfOk result (λ numbers. numbers ≡ map (λ name. pos 0) names.now) }
{
    let mut numbers = Vec::new(alloc);
    'names: for _name in names {
        numbers.push(0)?;
    }
    Values::from_vec(alloc, numbers)
}

/// An empty text for each name.
pub fn empty_texts(alloc: Global, names: &[Bytes]) -> Result<Values<Shared<Bytes>>, AllocError>
    ensures { IfOk result (λ texts. texts ≡ map (λ name. []) names.now) }
{
    let empty = Shared::new(alloc, Bytes::new(alloc))?;
    let mut texts = Vec::new(alloc);
    'names: for _name in names {
        texts.push(empty.share()?)?;
    }
    Values::from_vec(alloc, texts)
}

/// The variables of these names at the start: numbers that are 0, and empty texts.
pub fn blank(alloc: Global, numbers: &[Bytes], texts: &[Bytes]) -> Result<Variables, AllocError>
    ensures { IfOk result (λ variables. variables ≡ blank numbers.now texts.now) }
{
    Ok(Variables {
        numbers: zeros(alloc, numbers)?,
        texts: empty_texts(alloc, texts)?,
    })
}
