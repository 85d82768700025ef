//! Texts in a list with their places.

ghost use Rattle.std.specs.Prelude.{◌≡◌, ◌++◌, ◌↔◌, ◌-◌, ◌<◌, ◌≤◌, ℕ, IsTrue, length, replicate, is_none, slice_index_or, slice_set, Some, None, option_copied, IfOk, IfErr, OnOk, OnErr};
ghost use Rattle.std.specs.List.{list_all};
ghost use Rattle.bt_text.specs.Sparse.{filled_from};
ghost use Rattle.bt_text.specs.inner.Merging.{below, above, merged, same_present, place_at, same_text, IsGap, IsAt, IsInOrder};

use crate::excerpt::Excerpt;
use std::alloc::{AllocError, Global};
use std::marker::Model;

/// How many texts are touched at most. Few entries have more.
const MOST_TOUCHED: usize = 32;

/// A list of texts of which many may be missing, each that is there kept with its place. Contracts see the list, with
/// those that are missing. These take no memory.
#[derive(Debug, Drop)]
pub struct PlacedTexts {
    /// How long the list is, with the texts that are missing.
    count: usize,
    /// A bit for each of the first 64 places (the bits of a word) that has a text, or for which `put` ran out of memory.
    /// It's only a hint: `search` checks it.
    marks: u64,
    /// The texts that are there with their places, which rise.
    present: Vec<(usize, Excerpt)>,
}

impl Model for PlacedTexts {
    ghost use Rattle.std.specs.Prelude.{ℕ, List, Option};
    ghost use Rattle.bt_text.specs.Sparse.{all_texts, IsRising};

    ghost Value = { List (Option (List ℕ)) };

    ghost view = { λ texts. all_texts texts.count texts.present.items };

    ghost invariant = { λ texts. IsRising 0 texts.count texts.present.items };
}

impl PlacedTexts {
    /// So many places without a text. They take no memory.
    pub fn new(alloc: Global, count: usize) -> Self
        ensures { result ≡ replicate count None }
    {
        PlacedTexts {
            count,
            marks: 0,
            present: Vec::new(alloc),
        }
    }

    /// How long the list is.
    pub fn len(&self) -> usize
        ensures { result ≡ length self.now }
    {
        self.count
    }

    /// How many texts are there.
    pub fn count_present(&self) -> usize {
        self.present.len()
    }

    /// What gives these memory.
    pub fn allocator(&self) -> Global {
        *self.present.allocator()
    }

    /// Whether all texts are missing.
    pub fn has_none(&self) -> bool
        ensures { result ≡ list_all is_none self.now }
    {
        self.present.as_slice().is_empty()
    }

    /// The first texts with their places, as many as `touch_places` and `touch_texts` read at most.
    fn near(&self) -> &[(usize, Excerpt)] {
        let present = self.present.as_slice();
        &present[..present.len().min(MOST_TOUCHED)]
    }

    /// Reads the places of the first texts, so that they are in the processor's cache, and returns what depends on all of
    /// them.
    pub fn touch_places(&self) -> usize {
        let mut bits: usize = 0;
        'texts: for text in self.near() {
            bits |= text.0;
        }
        bits
    }

    /// Reads the first byte of each of the first texts, so that it is in the processor's cache, and returns what depends on
    /// all of them.
    pub fn touch_texts(&self) -> usize {
        let mut bits: usize = 0;
        'texts: for text in self.near() {
            if let Some(byte) = text.1.as_slice().first() {
                bits |= *byte as usize;
            }
        }
        bits
    }

    /// Makes room for `more` further texts. If memory runs out, nothing has changed.
    pub fn reserve(&mut self, more: usize) -> Result<(), AllocError>
        ensures { self.new ≡ self.old }
    {
        self.present.reserve(more)
    }

    /// The text of a place, if it is there.
    pub fn get(&self, place: usize) -> Option<&Excerpt>
        ensures { option_copied result ≡ slice_index_or self.now place None }
    {
        match search(self.present.as_slice(), self.marks, place) {
            Ok(at) => Some(&self.present[at].1),
            Err(_) => None,
        }
    }

    /// A place after the end stays as it is.
    fn put(&mut self, place: usize, text: Excerpt) -> Result<(), AllocError>
        ensures ok { OnOk result (self.new ≡ slice_set self.old place (Some text)) }
        ensures err { OnErr result (self.new ≡ self.old) }
    {
        if place >= self.count {
            return Ok(());
        }
        self.marks |= mark(place);
        match search(self.present.as_slice(), self.marks, place) {
            Ok(at) => {
                self.present[at] = (place, text);
                Ok(())
            }
            Err(at) => Ok(self.present.insert(at, (place, text))?),
        }
    }

    fn clear(&mut self, place: usize)
        ensures { self.new ≡ slice_set self.old place None }
    {
        if let Ok(at) = search(self.present.as_slice(), self.marks, place) {
            self.present.remove(at);
            self.marks &= !mark(place);
        }
    }

    /// Puts a text in a place, or takes away the one that is there; a place after the end stays as it is. The one error
    /// is out of memory; all texts are then as before.
    pub fn set(&mut self, place: usize, text: Option<Excerpt>) -> Result<(), AllocError>
        ensures ok { OnOk result (self.new ≡ slice_set self.old place text) }
        ensures err { OnErr result (self.new ≡ self.old) }
    {
        match text {
            Some(text) => self.put(place, text),
            None => {
                self.clear(place);
                Ok(())
            }
        }
    }

    /// The same texts, each for one more owner.
    pub fn copied(&self, alloc: Global) -> Result<Self, AllocError>
        ensures { IfOk result (λ same. same ≡ self.now) }
    {
        let present = copied(alloc, self.present.as_slice())?;
        Ok(PlacedTexts {
            count: self.count,
            marks: self.marks,
            present,
        })
    }

    /// The texts, each that is missing taken from others, for one more owner.
    pub fn filled_from(&self, alloc: Global, others: &PlacedTexts) -> Result<Self, AllocError>
        ensures { IfOk result (λ all. all ≡ filled_from self.now others.now) }
    {
        let texts = self.present.as_slice();
        let present = merged(alloc, self.count, texts, others.present.as_slice())?;
        Ok(PlacedTexts {
            count: self.count,
            marks: self.marks | others.marks,
            present,
        })
    }

    /// Whether others are the same, and as many. It goes over the texts that are there once.
    pub fn is_same(&self, others: &PlacedTexts) -> bool
        ensures { IsTrue result ↔ self.now ≡ others.now }
    {
        self.count == others.count
            && same_present(self.present.as_slice(), others.present.as_slice())
    }
}

/// The bit of a place, if it is one of the first 64.
fn mark(place: usize) -> u64 {
    if place < 64 { 1 << place } else { 0 }
}

/// How many marks stand before a place, if it is one of the first 64.
fn marks_before(marks: u64, place: usize) -> usize {
    (marks & mark(place).wrapping_sub(1)).count_ones() as usize
}

fn is_after_others(present: &[(usize, Excerpt)], place: usize, at: usize) -> bool
    requires { at ≤ length present.now }
    ensures { IsTrue result → 0 < at → place_at present.now (at - 1) < place }
{
    at == 0 || present[at - 1].0 < place
}

fn is_before_others(present: &[(usize, Excerpt)], place: usize, at: usize) -> bool
    requires { at ≤ length present.now }
    ensures { IsTrue result → at < length present.now → place < place_at present.now at }
{
    at == present.len() || place < present[at].0
}

/// Where the text of a place is, or where it would go. The marks tell where, unless the place is a late one.
fn search(present: &[(usize, Excerpt)], marks: u64, place: usize) -> Result<usize, usize>
    requires { IsInOrder present.now }
    ensures found { IfOk result (IsAt present.now place) }
    ensures absent { IfErr result (IsGap present.now place) }
{
    let guess = marks_before(marks, place);
    if guess < present.len() && present[guess].0 == place {
        return Ok(guess);
    }
    if guess <= present.len()
        && is_after_others(present, place, guess)
        && is_before_others(present, place, guess)
    {
        return Err(guess);
    }
    present.binary_search_by_key(&place, |there| there.0)
}

fn copied(alloc: Global, present: &[(usize, Excerpt)]) -> Result<Vec<(usize, Excerpt)>, AllocError>
    ensures { IfOk result (λ same. same.items ≡ present.now) }
{
    let mut same = Vec::with_capacity(alloc, present.len())?;
    'texts: for (place, text) in present {
        same.push((*place, text.share()?))?;
    }
    Ok(same)
}

/// Puts those whose places are below one after the others, and gives those that stand after it.
fn put_below<'a>(
    others: &'a [(usize, Excerpt)],
    place: usize,
    all: &mut Vec<(usize, Excerpt)>,
) -> Result<&'a [(usize, Excerpt)], AllocError>
    ensures all { OnOk result (all.new.items ≡ all.old.items ++ below place others.now) }
    ensures behind { IfOk result (λ rest. rest.now ≡ above place others.now) }
{
    'others: for i in 0..others.len() {
        let (at, text) = &others[i];
        if *at == place {
            return Ok(&others[i + 1..]);
        }
        if *at > place {
            return Ok(&others[i..]);
        }
        all.push((*at, text.share()?))?;
    }
    Ok(&[])
}

/// Texts with those of others whose places have none, below a count.
fn merged(
    alloc: Global,
    count: usize,
    texts: &[(usize, Excerpt)],
    others: &[(usize, Excerpt)],
) -> Result<Vec<(usize, Excerpt)>, AllocError>
    ensures { IfOk result (λ all. all.items ≡ merged count texts.now others.now) }
{
    let mut all = Vec::new(alloc);
    let mut rest = others;
    'texts: for (place, text) in texts {
        rest = put_below(rest, *place, &mut all)?;
        all.push((*place, text.share()?))?;
    }
    put_below(rest, count, &mut all)?;
    Ok(all)
}

fn same_text(text: &(usize, Excerpt), other: &(usize, Excerpt)) -> bool
    ensures { result ≡ same_text text.now other.now }
{
    text.0 == other.0 && text.1.as_slice() == other.1.as_slice()
}

fn same_present(texts: &[(usize, Excerpt)], others: &[(usize, Excerpt)]) -> bool
    ensures { result ≡ same_present texts.now others.now }
{
    if texts.len() != others.len() {
        return false;
    }
    'texts: for i in 0..texts.len() {
        if !same_text(&texts[i], &others[i]) {
            return false;
        }
    }
    true
}
