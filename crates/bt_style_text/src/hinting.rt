//! Names that nothing uses, names that nothing declares, and the likely name behind a misspelling.

ghost use Rattle.std.specs.Prelude.{◌≡◌, IfOk};
ghost use Rattle.std.specs.List.{list_any};
ghost use Rattle.bt_style_text.specs.Builtins.{all_builtins};
ghost use Rattle.bt_style_text.specs.Hinting.{is_inner_byte, is_inner, can_be_unused, is_unused, unused_among, unused, declarations, is_unknown, unknown, edits, most_edits, nearer, nearer_mark, nearer_builtin, nearest_mark, nearest_builtin, meant, likely_name};

use crate::builtins::{all_builtins, builtin_named, is_preset};
use crate::marks::Mark;
use crate::names::{Space, declaration_of, declares};
use crate::parts::part;
use crate::roles::{Kind, Role};
use crate::uses::{use_count, uses};
use bt_style::Builtin;
use bt_text::eq_ignore_ascii_case;
use std::alloc::{AllocError, Global};
use strsim::generic_levenshtein;

/// How many edits a misspelling has at most.
const MOST_EDITS: usize = 2;

/// The name that is probably meant.
#[derive(Clone, Copy)]
pub enum Likely {
    Nothing,
    Declared(Mark),
    Builtin(Builtin),
}

/// The nearest name so far, and the number of edits that a nearer one must have less than.
#[derive(Clone, Copy)]
struct Nearest {
    name: Likely,
    edits: usize,
}

fn is_inner_byte(byte: u8) -> bool
    ensures { result ≡ is_inner_byte byte }
{
    byte == b'.' || byte == b'$'
}

fn has_inner_byte(name: &[u8]) -> bool
    ensures { result ≡ list_any is_inner_byte name.now }
{
    name.iter().any(|byte| is_inner_byte(*byte))
}

/// Whether a function has a name that no database would use for a type.
fn is_inner(name: &[u8]) -> bool
    ensures { result ≡ is_inner name.now }
{
    has_inner_byte(name) && !eq_ignore_ascii_case(name, b"default.type")
}

/// Whether a declaration of a name would be worth nothing without a use.
fn can_be_unused(role: Role, name: &[u8]) -> bool
    ensures { result ≡ can_be_unused role name.now }
{
    match role {
        Role::Declared(Kind::Function) => is_inner(name),
        Role::Declared(Kind::Macro) => false,
        Role::Declared(_) => true,
        _ => false,
    }
}

/// Whether a mark declares what none of these marks uses.
#[tactic(auto, unfolding(crate::specs::Hinting::is_unused))]
fn is_unused(text: &[u8], marks: &[Mark], mark: Mark) -> bool
    ensures { result ≡ is_unused text.now marks.now mark }
{
    let name = part(text, mark.start, mark.end);
    can_be_unused(mark.role, name) && use_count(text, marks, name) == 0
}

/// Those of some marks that declare what none of all marks uses.
fn unused_among(
    alloc: Global,
    text: &[u8],
    all: &[Mark],
    marks: &[Mark],
) -> Result<Vec<Mark>, AllocError>
    ensures { IfOk result (λ found. found.items ≡ unused_among text.now all.now marks.now) }
{
    marks
        .iter()
        .copied()
        .filter(|mark| is_unused(text, all, *mark))
        .collect(alloc)
}

/// The fields, variables and functions that nothing uses. Databases use macros, and their entries functions whose names can
/// be types.
pub fn unused(alloc: Global, text: &[u8], marks: &[Mark]) -> Result<Vec<Mark>, AllocError>
    ensures { IfOk result (λ found. found.items ≡ unused text.now marks.now) }
{
    unused_among(alloc, text, marks, marks)
}

/// The declarations of a style.
pub fn declarations(alloc: Global, marks: &[Mark]) -> Result<Vec<Mark>, AllocError>
    ensures { IfOk result (λ found. found.items ≡ declarations marks.now) }
{
    marks
        .iter()
        .copied()
        .filter(|mark| declares(mark.role))
        .collect(alloc)
}

/// Whether a mark uses a name that is not among these declarations, and that BibTeX doesn't have.
fn is_unknown(text: &[u8], declared: &[Mark], mark: Mark) -> bool
    ensures { result ≡ is_unknown text.now declared.now mark }
{
    let name = part(text, mark.start, mark.end);
    uses(mark.role)
        && builtin_named(name).is_none()
        && !is_preset(name)
        && declaration_of(text, declared, Space::Names, name).is_none()
}

/// The marks that use a name which nothing declares, by a style's declarations.
pub fn unknown(
    alloc: Global,
    text: &[u8],
    marks: &[Mark],
    declared: &[Mark],
) -> Result<Vec<Mark>, AllocError>
    ensures { IfOk result (λ found. found.items ≡ unknown text.now marks.now declared.now) }
{
    marks
        .iter()
        .copied()
        .filter(|mark| is_unknown(text, declared, *mark))
        .collect(alloc)
}

/// How many bytes must be put in, left out or replaced to make one name of another.
fn edits(alloc: Global, from: &[u8], to: &[u8]) -> Result<usize, AllocError>
    ensures { IfOk result (λ n. n ≡ edits from.now to.now) }
{
    generic_levenshtein(alloc, from, to)
}

/// A short name has fewer edits than bytes.
fn most_edits(name: &[u8]) -> usize
    ensures { result ≡ most_edits name.now }
{
    name.len().min(MOST_EDITS + 1)
}

fn nearer(
    alloc: Global,
    name: &[u8],
    nearest: Nearest,
    other: &[u8],
    likely: Likely,
) -> Result<Nearest, AllocError>
    ensures { IfOk result (λ best. best ≡ nearer name.now nearest other.now likely) }
{
    let edits = edits(alloc, name, other)?;
    if edits < nearest.edits {
        Ok(Nearest {
            name: likely,
            edits,
        })
    } else {
        Ok(nearest)
    }
}

fn nearest_mark(
    alloc: Global,
    text: &[u8],
    name: &[u8],
    nearest: Nearest,
    marks: &[Mark],
) -> Result<Nearest, AllocError>
    ensures { IfOk result (λ best. best ≡ nearest_mark text.now name.now nearest marks.now) }
{
    let mut best = nearest;
    'marks: for mark in marks {
        let other = part(text, mark.start, mark.end);
        best = nearer(alloc, name, best, other, Likely::Declared(*mark))?;
    }
    Ok(best)
}

fn nearest_builtin(
    alloc: Global,
    name: &[u8],
    nearest: Nearest,
    builtins: &[Builtin],
) -> Result<Nearest, AllocError>
    ensures { IfOk result (λ best. best ≡ nearest_builtin name.now nearest builtins.now) }
{
    let mut best = nearest;
    'builtins: for builtin in builtins {
        best = nearer(alloc, name, best, builtin.name(), Likely::Builtin(*builtin))?;
    }
    Ok(best)
}

fn nearest_of_all(alloc: Global, name: &[u8], nearest: Nearest) -> Result<Nearest, AllocError>
    ensures { IfOk result (λ best. best ≡ nearest_builtin name.now nearest all_builtins) }
{
    nearest_builtin(alloc, name, nearest, all_builtins())
}

/// The name that is probably meant by one that nothing declares: one of the declared names or the built-in functions, the
/// first of those with the fewest edits, if these are at most two.
pub fn meant(
    alloc: Global,
    text: &[u8],
    declared: &[Mark],
    name: &[u8],
) -> Result<Likely, AllocError>
    ensures { IfOk result (λ found. found ≡ meant text.now declared.now name.now) }
{
    let none = Nearest {
        name: Likely::Nothing,
        edits: most_edits(name),
    };
    let mark = nearest_mark(alloc, text, name, none, declared)?;
    let nearest = nearest_of_all(alloc, name, mark)?;
    Ok(nearest.name)
}

/// The bytes of the name that is probably meant; none if there is no such name.
pub fn likely_name(text: &[u8], likely: Likely) -> &[u8]
    ensures { result.now ≡ likely_name text.now likely }
{
    match likely {
        Likely::Nothing => &[],
        Likely::Declared(mark) => part(text, mark.start, mark.end),
        Likely::Builtin(builtin) => builtin.name(),
    }
}
