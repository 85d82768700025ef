//! Finds what READ asks: what is kept, an edit of it, or all anew.

ghost use Rattle.std.specs.Prelude.{◌≡◌, ◌≤◌, length, map, IfOk, IfSome, IsTrue, OnOk};
ghost use Rattle.bt_bib.specs.BibText.{pieces_of};
ghost use Rattle.bt_text.specs.NameList.{are_apart};
ghost use Rattle.bt_resolve.specs.inner.Kept.{resolved_for};
ghost use Rattle.bt_run.specs.inner.Asked.{question_of};
ghost use Rattle.bt_run.specs.inner.Found.{IsKept};
ghost use Rattle.bt_resolve.specs.declared.question.Question.{Question};
ghost use Rattle.bt_run.specs.inner.Alike.{IsAlike, is_known};

use crate::alike::Alike;
use crate::asking::Asking;
use crate::kept_resolution::KeptResolution;
use bt_bib::{Items, read_bib};
use bt_resolve::{Resolved, resolve};
use bt_text::{Bytes, Sequence, Shared};
use std::alloc::{AllocError, Global};

/// Makes what is kept answer the question, as it is or by an edit, and returns which entries stay. If it can't, it
/// returns `Unknown`.
fn keep_up(
    alloc: Global,
    kept: &mut Option<KeptResolution>,
    asking: &Asking,
) -> Result<Alike, AllocError>
    ensures kept { IfOk result (λ alike. IsTrue (is_known alike) → IsKept kept.new (question_of asking.now)) }
    ensures alike { IfOk result (λ alike. (was : Question) → IsKept kept.old was →
        IsAlike alike (resolved_for was) (resolved_for (question_of asking.now))) }
{
    let Some(kept) = kept else {
        return Ok(Alike::Unknown);
    };
    if !asking.is_like(kept.resolution.question()) {
        return Ok(Alike::Unknown);
    }
    let alike = kept.follow(asking.texts.as_slice())?;
    Ok(alike)
}

/// The items of a text: those that are known, or else it is read.
fn items_of(
    alloc: Global,
    text: &[u8],
    kept: &Option<KeptResolution>,
) -> Result<Shared<Items>, AllocError>
    ensures { IfOk result (λ items. items ≡ pieces_of text.now) }
{
    if let Some(kept) = kept
        && let Some(items) = kept.items_of(text)
    {
        return items.share();
    }
    Shared::new(alloc, read_bib(alloc, text)?)
}

fn all_items(
    alloc: Global,
    texts: &[Shared<Bytes>],
    kept: &Option<KeptResolution>,
) -> Result<Sequence<Shared<Items>>, AllocError>
    ensures { IfOk result (λ all. all ≡ map pieces_of texts.now) }
{
    let mut all = Sequence::new(alloc);
    'texts: for text in texts {
        all.push(items_of(alloc, text.as_slice(), kept)?)?;
    }
    Ok(all)
}

/// Finds all anew, and keeps it.
fn find_anew(
    alloc: Global,
    asking: Asking,
    kept: &mut Option<KeptResolution>,
) -> Result<(), AllocError>
    requires fields { IsTrue (are_apart asking.declared.fields) }
    requires star { IfSome asking.cites.star (λ before. before ≤ length asking.cites.keys) }
    ensures { OnOk result (IsKept kept.new (question_of asking)) }
{
    let databases = all_items(alloc, asking.texts.as_slice(), kept)?;
    let found = KeptResolution::of(alloc, asking, databases, kept.take())?;
    drop(kept.replace(found));
    Ok(())
}

/// Finds what is asked, and keeps it. Returns which entries of what was kept stay.
pub fn find(
    alloc: Global,
    asking: Asking,
    kept: &mut Option<KeptResolution>,
) -> Result<Alike, AllocError>
    requires fields { IsTrue (are_apart asking.declared.fields) }
    requires star { IfSome asking.cites.star (λ before. before ≤ length asking.cites.keys) }
    ensures kept { OnOk result (IsKept kept.new (question_of asking)) }
    ensures alike { IfOk result (λ alike. (was : Question) → IsKept kept.old was →
        IsAlike alike (resolved_for was) (resolved_for (question_of asking))) }
{
    let alike = keep_up(alloc, kept, &asking)?;
    if alike.is_known() {
        return Ok(alike);
    }
    find_anew(alloc, asking, kept)?;
    Ok(Alike::Unknown)
}

/// What the style sees of what is asked, for a run that keeps nothing of the databases.
pub fn resolve_asked(alloc: Global, asking: &Asking) -> Result<Resolved, AllocError>
    requires fields { IsTrue (are_apart asking.now.declared.fields) }
    requires star { IfSome asking.now.cites.star (λ before. before ≤ length asking.now.cites.keys) }
    ensures { IfOk result (λ all. all ≡ resolved_for (question_of asking.now)) }
{
    let all = resolve(
        alloc,
        &asking.declared,
        &asking.cites,
        asking.texts.as_slice(),
        asking.min,
    )?;
    Ok(all)
}
