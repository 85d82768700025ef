//! The parts of a name, and a name in a pattern.

ghost use Rattle.std.specs.Prelude.{◌≡◌, IfErr, IfNone, IfOk, IfSome, IsOkAnd, None, Ok, Some};
ghost use Rattle.bt_names.specs.Names.{name_at};
ghost use Rattle.bt_names.specs.FormattedName.{formatted_name, name_parts, IsFormatFault, IsNameFault};
ghost use Rattle.bt_names.specs.Written.{IsKept, IsWritten};

use crate::cuts::has_many_commas;
use crate::faults::{FormatFault, NameFault};
use crate::name::Name;
use crate::name_parts::cut_name;
use crate::names::name_at;
use crate::sound_patterns::SoundPatterns;
use crate::tokens::Parts;
use crate::writing::{Written, push_pieces};
use bt_text::Bytes;
use std::alloc::Global;

/// The parts of the n-th of the names that a text lists, counted from 1.
///
/// The faults are reported in this order: `NoSuchName` if n is 0 or less or above the number of names, `TooManyCommas` if
/// the name has more than two, `OutOfMemory`. The first two take no memory.
#[tactic(auto, unfolding(crate::specs::FormattedName::name_parts))]
pub fn parts(alloc: Global, names: &[u8], n: i32) -> Result<Parts, NameFault>
    ensures parts { IfOk result (λ parts. name_parts names.now n ≡ Ok parts) }
    ensures fault { IfErr result (IsNameFault (name_parts names.now n)) }
{
    let Some(name) = name_at(names, n) else {
        return Err(NameFault::NoSuchName);
    };
    if has_many_commas(name) {
        return Err(NameFault::TooManyCommas);
    }
    let name = Name::new(alloc, name)?;
    let cut = cut_name(alloc, &name)?;
    Ok(cut.parts().copied(alloc)?)
}

/// One of the names that a text lists, counted from 1.
#[derive(Clone, Copy)]
pub struct ListedName<'a> {
    pub names: &'a [u8],
    pub number: i32,
}

impl<'a> ListedName<'a> {
    fn find(self) -> Option<&'a [u8]>
        ensures some { IfSome result (λ name. name_at self.entry.names.now self.entry.number ≡ Some name.now) }
        ensures none { IfNone result (name_at self.entry.names.now self.entry.number ≡ None) }
    {
        name_at(self.names, self.number)
    }

    /// Appends the name in a pattern to `out`, if that has at most `limit` bytes. It allocates little more than the names
    /// and the limit need, however long the whole text would be. If the result is `Longer`, `out` begins with its old
    /// bytes. A fault other than out of memory leaves `out` unchanged.
    ///
    /// The faults are reported in this order: `NoSuchName` if the number is 0 or less or above the number of names,
    /// `TooManyCommas` if the name has more than two, `PatternFault` with the place of the first fault of the pattern,
    /// `OutOfMemory`. The first three take no memory.
    ///
    /// `known` are patterns that are already checked and cut into pieces.
    pub fn push_formatted(
        self,
        known: &SoundPatterns,
        out: &mut Vec<u8>,
        pattern: &[u8],
        limit: usize,
    ) -> Result<Written, FormatFault>
        ensures text { IfOk result (λ written.
            IsOkAnd (formatted_name self.entry.names.now self.entry.number pattern.now)
            (λ t. IsWritten limit t out.old.items out.new.items written)) }
        ensures fault { IfErr result (IsFormatFault (formatted_name self.entry.names.now self.entry.number pattern.now)) }
        ensures kept { IfErr result (IsKept out.old.items out.new.items) }
    {
        let Some(name) = self.find() else {
            return Err(FormatFault::NoSuchName);
        };
        if has_many_commas(name) {
            return Err(FormatFault::TooManyCommas);
        }
        let pattern = match known.find(pattern) {
            Ok(pattern) => pattern,
            Err(place) => return Err(FormatFault::PatternFault(place)),
        };
        let alloc = *out.allocator();
        let name = Name::new(alloc, name)?;
        let cut = cut_name(alloc, &name)?;
        let written = push_pieces(out, limit, &cut.parts(), pattern)?;
        Ok(written)
    }
}

/// The n-th of the names that a text lists, counted from 1, in a pattern. The faults are those of
/// `ListedName::push_formatted`, in the same order, and all but out of memory take no memory.
pub fn format(alloc: Global, names: &[u8], n: i32, pattern: &[u8]) -> Result<Bytes, FormatFault>
    ensures text { IfOk result (λ text. formatted_name names.now n pattern.now ≡ Ok text) }
    ensures fault { IfErr result (IsFormatFault (formatted_name names.now n pattern.now)) }
{
    let known = SoundPatterns::none(alloc);
    let mut page = Vec::new(alloc);
    let name = ListedName { names, number: n };
    match name.push_formatted(&known, &mut page, pattern, usize::MAX)? {
        Written::Whole => Ok(Bytes::from_vec(page)),
        Written::Longer => Err(FormatFault::OutOfMemory),
    }
}
