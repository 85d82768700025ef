//! Looks up the files of a job, in the order in which its run looks for them.

ghost use Rattle.std.specs.Prelude.{◌≡◌, ◌^◌, ◌-◌, ◌<◌, Bool, true, false, length, None, IfOk, OnOk, OnErr, Ok, Err};
ghost use Rattle.std.specs.List.{flat_map};
ghost use Rattle.bibtex.specs.Present.{is_root_name};
ghost use Rattle.bt_one_shot.specs.inner.Sinks.{GoesOn};
ghost use Rattle.bt_one_shot.specs.JobFiles.{next, refusal_line};
ghost use Rattle.bt_one_shot.specs.inner.Progress.{TakesIn, LooksUpName, Goes, LoadsAll, LoadsSome};

use crate::folder::{Folder, Found};
use crate::met_names::NamesMet;
use crate::options::Options;
use bibtex::{Draft, Edit, Refusal, Snapshot, code_of};
use bt_streams::{Sink, say};
use bt_text::Bytes;
use itoa::Buffer;
use std::alloc::{AllocError, Global};

/// Writes the pieces of a line to a sink, unless it has failed since its failures were counted. A failure is ignored.
pub fn tell<E: Sink>(err: &mut E, failures_before: u64, pieces: &[&[u8]])
    requires { failures_before < 2 ^ 64 - 1 }
    ensures { GoesOn failures_before (E.seen err.old) (E.seen err.new)
        (flat_map (λ piece. piece.now) pieces.now) }
{
    if err.failures() == failures_before {
        let _ = say(err, pieces);
    }
}

fn tell_refused<E: Sink>(err: &mut E, failures_before: u64, refusal: Refusal, name: &[u8])
    requires { failures_before < 2 ^ 64 - 1 }
    ensures { GoesOn failures_before (E.seen err.old) (E.seen err.new)
        (refusal_line name.now (Err refusal)) }
{
    let mut code = Buffer::new();
    let code = code.format(code_of(refusal)).as_bytes();
    tell(
        err,
        failures_before,
        &[b"bibtex: refused ", code, b" ", name, b"\n"],
    );
}

/// Takes what was found under a name into a draft, and returns whether the draft has changed, or why it was refused.
fn take_in(draft: &mut Draft, name: &[u8], found: Found) -> Result<bool, Refusal>
    ensures { (ran_out : Bool) × TakesIn draft.old draft.new name.now ran_out found result }
{
    match found {
        Found::Bytes(text) => match draft.edit(Edit::Write(name, text.as_slice())) {
            Ok(()) => Ok(true),
            Err(refusal) => Err(refusal),
        },
        Found::Missing => Ok(false),
        Found::NoRoom => Err(Refusal::OutOfMemory),
    }
}

/// Looks up a file and takes it into a draft, and returns whether the draft has changed.
fn look_up<F: Folder, E: Sink>(
    draft: &mut Draft,
    folder: &mut F,
    err: &mut E,
    failures_before: u64,
    name: &[u8],
) -> bool
    requires { failures_before < 2 ^ 64 - 1 }
    ensures looks { LooksUpName failures_before draft.old draft.new name.now (F.seen folder.old) (F.seen folder.new)
        (E.seen err.old) (E.seen err.new) }
    ensures unchanged { result ≡ false → draft.new ≡ draft.old }
{
    let found = folder.read(name);
    match take_in(draft, name, found) {
        Ok(changed) => changed,
        Err(refusal) => {
            tell_refused(err, failures_before, refusal, name);
            false
        }
    }
}

/// Looks up the names that a draft wants and that are new, in order, until one changes the draft, and returns whether
/// one has.
#[tactic(auto, using(crate::proofs::LoadLemmas::goes_none))]
fn look_up_wanted<F: Folder, E: Sink>(
    draft: &mut Draft,
    met: &mut NamesMet,
    folder: &mut F,
    err: &mut E,
    failures_before: u64,
) -> Result<bool, AllocError>
    requires { failures_before < 2 ^ 64 - 1 }
    ensures goes { Goes failures_before draft.old draft.new met.old met.new (F.seen folder.old) (F.seen folder.new)
        (E.seen err.old) (E.seen err.new) }
    ensures end { result ≡ Ok false → next draft.new met.new ≡ None }
    ensures more { result ≡ Ok true → (length met.old < length met.new) × (length met.old < 2 ^ 63) }
{
    let wanted = draft.wanted()?;
    'wanted: for name in wanted.as_slice() {
        let name = name.as_slice();
        if !met.has(name) {
            met.put(name)?;
            if look_up(draft, folder, err, failures_before, name) {
                return Ok(true);
            }
        }
    }
    Ok(false)
}

/// Looks up each file that a draft wants, once, in the order in which its run looks for them, until it wants no new
/// one. A file that is refused is reported on `err`, and counts as missing. After out of memory, the draft has the
/// files that were looked up before.
#[tactic(auto, using(crate::proofs::LoadLemmas::goes_none, crate::proofs::LoadLemmas::goes_more))]
fn load_all<F: Folder, E: Sink>(
    draft: &mut Draft,
    met: &mut NamesMet,
    folder: &mut F,
    err: &mut E,
    failures_before: u64,
) -> Result<(), AllocError>
    requires { failures_before < 2 ^ 64 - 1 }
    ensures goes { Goes failures_before draft.old draft.new met.old met.new (F.seen folder.old) (F.seen folder.new)
        (E.seen err.old) (E.seen err.new) }
    ensures end { OnOk result (next draft.new met.new ≡ None) }
{
    'rounds: while look_up_wanted(draft, met, folder, err, failures_before)? {}
    Ok(())
}

/// What the job of these options means with the files that it wants, each looked up once, in the order in which its run
/// looks for them. A file that is refused is reported on `err`, and counts as missing. The only error is out of memory.
pub fn load<F: Folder, E: Sink>(
    alloc: Global,
    options: &Options,
    folder: &mut F,
    err: &mut E,
    failures_before: u64,
) -> Result<Snapshot, AllocError>
    requires root { is_root_name options.now.root ≡ true }
    requires failures { failures_before < 2 ^ 64 - 1 }
    ensures ok { IfOk result (λ snapshot. LoadsAll failures_before options.now.root options.now.min snapshot
        (F.seen folder.old) (F.seen folder.new)
        (E.seen err.old) (E.seen err.new)) }
    ensures err { OnErr result (LoadsSome failures_before options.now.root options.now.min (F.seen folder.old)
        (F.seen folder.new)
        (E.seen err.old) (E.seen err.new)) }
{
    let Ok(mut draft) = Draft::new(alloc, options.root.as_slice(), options.min) else {
        return Err(AllocError);
    };
    let mut met = NamesMet::new(alloc);
    load_all(&mut draft, &mut met, folder, err, failures_before)?;
    let snapshot = Snapshot::of(draft)?;
    Ok(snapshot)
}
