//! Texts by their places, of which many may be missing.
//!
//! An entry has few of the fields that a style declares, and inherits the rest of its parent's. Its own texts lie over at
//! most one shared list, never over a chain of them, so a look-up takes at most two searches, however long the line of
//! parents is.

ghost use Rattle.std.specs.Prelude.{◌≡◌, ◌↔◌, IsTrue, length, replicate, is_none, slice_index_or, slice_set, None, option_copied, IfOk, OnOk, OnErr};
ghost use Rattle.std.specs.List.{list_all};
ghost use Rattle.bt_text.specs.Sparse.{filled_from};

use crate::excerpt::Excerpt;
use crate::places::PlacedTexts;
use crate::shared::Shared;
use std::alloc::{AllocError, Global};
use std::marker::Model;

/// A list of fewer texts is copied instead of shared: the usual entry then has one flat list, with one search.
const MANY: usize = 64;

/// A list of texts of which many may be missing, laid over another one from which those that it lacks are taken.
/// Contracts see the list, with those that are missing in both; these take no memory.
#[derive(Debug, Drop)]
pub struct SparseTexts {
    /// The texts that these alone have.
    own: PlacedTexts,
    /// Texts that others have too, each for a place that has none of its own.
    base: Option<Shared<PlacedTexts>>,
}

impl Model for SparseTexts {
    ghost use Rattle.std.specs.Prelude.{◌≤◌, ℕ, length, unwrap_or, List, [], Option};
    ghost use Rattle.bt_text.specs.Sparse.{filled_from};

    ghost Value = { List (Option (List ℕ)) };

    ghost view = { λ texts. filled_from texts.own (unwrap_or texts.base []) };

    ghost invariant = { λ texts. length (unwrap_or texts.base []) ≤ length texts.own };
}

/// Texts in one list: their own if they are few, ready to be shared if they are many.
#[tactic(auto, using(crate::proofs::LayerLemmas::filled_none, crate::proofs::LayerLemmas::filled_gaps))]
fn settled(alloc: Global, texts: PlacedTexts) -> Result<SparseTexts, AllocError>
    ensures { IfOk result (λ same. same ≡ texts) }
{
    if texts.count_present() < MANY {
        return Ok(SparseTexts {
            own: texts,
            base: None,
        });
    }
    Ok(SparseTexts {
        own: PlacedTexts::new(alloc, texts.len()),
        base: Some(Shared::new(alloc, texts)?),
    })
}

/// The texts, each that is missing taken from those of a base. The base is shared if the own texts are at most an eighth
/// of it. Else all are put into one list, which then has fewer than nine times as many texts as were own.
fn over(
    alloc: Global,
    own: PlacedTexts,
    base: &Shared<PlacedTexts>,
) -> Result<SparseTexts, AllocError>
    ensures { IfOk result (λ all. all ≡ filled_from own base.now) }
{
    if own.len() != base.len() || own.count_present() > base.count_present() / 8 {
        return settled(alloc, own.filled_from(alloc, base)?);
    }
    Ok(SparseTexts {
        own,
        base: Some(base.share()?),
    })
}

#[tactic(auto, using(crate::proofs::LayerLemmas::filled_twice, crate::proofs::LayerLemmas::filled_none))]
fn filled(
    alloc: Global,
    texts: &PlacedTexts,
    others: &SparseTexts,
) -> Result<SparseTexts, AllocError>
    ensures { IfOk result (λ all. all ≡ filled_from texts.now others.now) }
{
    let own = texts.filled_from(alloc, &others.own)?;
    match &others.base {
        None => settled(alloc, own),
        Some(base) => over(alloc, own, base),
    }
}

fn same_text(text: Option<&Excerpt>, other: Option<&Excerpt>) -> bool
    ensures { IsTrue result ↔ option_copied text.entry ≡ option_copied other.entry }
{
    match (text, other) {
        (None, None) => true,
        (Some(text), Some(other)) => text.as_slice() == other.as_slice(),
        _ => false,
    }
}

impl SparseTexts {
    /// So many places without a text. They take no memory.
    #[tactic(auto, using(crate::proofs::LayerLemmas::filled_none))]
    pub fn new(alloc: Global, count: usize) -> Self
        ensures { result ≡ replicate count None }
    {
        SparseTexts {
            own: PlacedTexts::new(alloc, count),
            base: None,
        }
    }

    /// Reads the places of the first of its own texts, so that they are in the processor's cache, and returns what depends
    /// on all of them.
    pub fn touch_places(&self) -> usize {
        self.own.touch_places()
    }

    /// Reads the first byte of each of these texts, so that it is in the processor's cache, and returns what depends on all
    /// of them.
    pub fn touch_texts(&self) -> usize {
        self.own.touch_texts()
    }

    /// Makes room for `more` further texts. If memory runs out, nothing has changed.
    pub fn reserve(&mut self, more: usize) -> Result<(), AllocError>
        ensures { self.new ≡ self.old }
    {
        self.own.reserve(more)
    }

    /// How long the list is.
    #[tactic(auto, using(crate::proofs::LayerLemmas::filled_length))]
    pub fn len(&self) -> usize
        ensures { result ≡ length self.now }
    {
        self.own.len()
    }

    /// Whether all texts are missing.
    #[tactic(auto, using(crate::proofs::LayerLemmas::filled_none, crate::proofs::LayerLemmas::filled_has_none))]
    pub fn has_none(&self) -> bool
        ensures { result ≡ list_all is_none self.now }
    {
        match &self.base {
            None => self.own.has_none(),
            Some(base) => self.own.has_none() && base.has_none(),
        }
    }

    /// The text of a place, if it is there.
    #[tactic(auto, using(crate::proofs::LayerLemmas::filled_get, crate::proofs::LayerLemmas::filled_none))]
    pub fn get(&self, place: usize) -> Option<&Excerpt>
        ensures { option_copied result ≡ slice_index_or self.now place None }
    {
        match (self.own.get(place), &self.base) {
            (Some(text), _) => Some(text),
            (None, None) => None,
            (None, Some(base)) => base.get(place),
        }
    }

    /// The same texts, none of which others have too.
    #[tactic(auto, using(crate::proofs::LayerLemmas::filled_none))]
    fn all(&self) -> Result<PlacedTexts, AllocError>
        ensures { IfOk result (λ all. all ≡ self.now) }
    {
        let alloc = self.own.allocator();
        match &self.base {
            None => self.own.copied(alloc),
            Some(base) => self.own.filled_from(alloc, base),
        }
    }

    #[tactic(auto, using(crate::proofs::LayerLemmas::filled_clear, crate::proofs::LayerLemmas::filled_none))]
    fn clear(&mut self, place: usize) -> Result<(), AllocError>
        ensures ok { OnOk result (self.new ≡ slice_set self.old place None) }
        ensures err { OnErr result (self.new ≡ self.old) }
    {
        let Some(base) = &self.base else {
            return self.own.set(place, None);
        };
        if base.get(place).is_none() {
            return self.own.set(place, None);
        }
        let mut all = self.all()?;
        all.set(place, None)?;
        self.own = all;
        self.base = None;
        Ok(())
    }

    /// Puts a text in a place, or takes away the one that is there; a place after the end stays as it is. The one error
    /// is out of memory; all texts are then as before.
    #[tactic(auto, using(crate::proofs::LayerLemmas::filled_put))]
    pub fn set(&mut self, place: usize, text: Option<Excerpt>) -> Result<(), AllocError>
        ensures ok { OnOk result (self.new ≡ slice_set self.old place text) }
        ensures err { OnErr result (self.new ≡ self.old) }
    {
        match text {
            Some(text) => self.own.set(place, Some(text)),
            None => self.clear(place),
        }
    }

    /// The same texts, each for one more owner.
    pub fn copied(&self, alloc: Global) -> Result<Self, AllocError>
        ensures { IfOk result (λ same. same ≡ self.now) }
    {
        let base = match &self.base {
            None => None,
            Some(base) => Some(base.share()?),
        };
        Ok(SparseTexts {
            own: self.own.copied(alloc)?,
            base,
        })
    }

    /// The texts for many owners. Where they are many, those that are filled from them share them.
    #[tactic(auto, using(crate::proofs::LayerLemmas::filled_none))]
    pub fn into_shared(self, alloc: Global) -> Result<Shared<SparseTexts>, AllocError>
        ensures { IfOk result (λ texts. texts ≡ self) }
    {
        let SparseTexts { own, base } = self;
        match base {
            None => Shared::new(alloc, settled(alloc, own)?),
            Some(base) => Shared::new(
                alloc,
                SparseTexts {
                    own,
                    base: Some(base),
                },
            ),
        }
    }

    /// The texts, each that is missing taken from others, for one more owner. Where the others are many and these are
    /// few, the others are shared.
    #[tactic(auto, using(crate::proofs::LayerLemmas::filled_none))]
    pub fn filled_from(&self, alloc: Global, others: &SparseTexts) -> Result<Self, AllocError>
        ensures { IfOk result (λ all. all ≡ filled_from self.now others.now) }
    {
        match &self.base {
            None => filled(alloc, &self.own, others),
            Some(base) => filled(alloc, &self.own.filled_from(alloc, base)?, others),
        }
    }

    /// Place by place, for when there is no memory for whole lists: a comparison can't fail.
    fn is_same_everywhere(&self, others: &SparseTexts) -> bool
        ensures { IsTrue result ↔ self.now ≡ others.now }
    {
        if self.len() != others.len() {
            return false;
        }
        'places: for place in 0..self.len() {
            if !same_text(self.get(place), others.get(place)) {
                return false;
            }
        }
        true
    }

    /// Whether others are the same, and as many. It goes over the texts that are there once or twice.
    #[tactic(auto, using(crate::proofs::LayerLemmas::filled_none))]
    pub fn is_same(&self, others: &SparseTexts) -> bool
        ensures { IsTrue result ↔ self.now ≡ others.now }
    {
        match (&self.base, &others.base) {
            (None, None) => self.own.is_same(&others.own),
            (Some(base), Some(other)) if self.own.is_same(&others.own) && base.is_same(other) => {
                true
            }
            _ => match (self.all(), others.all()) {
                (Ok(texts), Ok(others)) => texts.is_same(&others),
                _ => self.is_same_everywhere(others),
            },
        }
    }
}
