//! The one-shot form: reads the files of a job, writes its `.bbl` and its `.blg`, and prints the log.

ghost use Rattle.std.specs.Prelude.{◌≡◌, ◌^◌, ◌-◌, ◌<◌, ◌++◌, true, codes, IfOk, OnErr};
ghost use Rattle.bibtex.specs.Present.{is_root_name};
ghost use Rattle.bt_one_shot.specs.Sinks.{Tells};
ghost use Rattle.bt_one_shot.specs.Shots.{exit_of, printed_log, Runs, Stops};
ghost use Rattle.bt_one_shot.specs.inner.Progress.{EndsAfter};

use crate::folder::Folder;
use crate::job_files::{load, tell};
use crate::options::Options;
use bibtex::Snapshot;
use bt_streams::{Sink, say};
use bt_text::Bytes;
use std::alloc::{AllocError, Global};
use std::mem::forget;

/// The exit status if a file can't be written.
const UNWRITTEN: u8 = 3;

/// The exit status of a run: 0 if it gave at most warnings, else the run's status.
fn exit_status(status: u8) -> u8
    ensures { result ≡ exit_of status }
{
    if status <= 1 { 0 } else { status }
}

fn printed_log(snapshot: &Snapshot, terse: bool) -> &[u8]
    ensures { result.now ≡ printed_log terse snapshot.now }
{
    if terse {
        snapshot.terse()
    } else {
        snapshot.blg()
    }
}

/// Prints a log. A failure is ignored.
#[tactic(auto, using(crate::proofs::TellLemmas::printed))]
fn print_log<O: Sink>(out: &mut O, log: &[u8])
    requires { (O.seen out.old).failures < 2 ^ 64 - 1 }
    ensures { Tells (O.seen out.old) (O.seen out.new) log.now }
{
    let _ = say(out, &[log]);
}

/// What a run writes: the two files of its state, by their names, and the log that is printed.
#[derive(Drop)]
struct Outputs<'a> {
    snapshot: &'a Snapshot,
    bbl: &'a [u8],
    blg: &'a [u8],
    log: &'a [u8],
}

fn write_out<F: Folder, O: Sink, E: Sink>(
    outputs: &Outputs<'_>,
    folder: &mut F,
    out: &mut O,
    err: &mut E,
    failures_before: u64,
) -> u8
    requires bbl { outputs.now.bbl.now ≡ outputs.now.snapshot.now.root ++ codes ".bbl" }
    requires blg { outputs.now.blg.now ≡ outputs.now.snapshot.now.root ++ codes ".blg" }
    requires folder { (F.seen folder.old).failures < 2 ^ 64 - 1 }
    requires out { (O.seen out.old).failures < 2 ^ 64 - 1 }
    requires err { failures_before < 2 ^ 64 - 1 }
    ensures { EndsAfter failures_before outputs.now.snapshot.now outputs.now.log.now (F.seen folder.old)
        (F.seen folder.new) (O.seen out.old) (O.seen out.new) (E.seen err.old) (E.seen err.new) result }
{
    let Outputs {
        snapshot,
        bbl,
        blg,
        log,
    } = *outputs;
    if !folder.write(bbl, snapshot.bbl()) {
        tell(err, failures_before, &[b"bibtex: can't write ", bbl, b"\n"]);
        return UNWRITTEN;
    }
    if !folder.write(blg, snapshot.blg()) {
        tell(err, failures_before, &[b"bibtex: can't write ", blg, b"\n"]);
        return UNWRITTEN;
    }
    print_log(out, log);
    exit_status(snapshot.status())
}

/// Runs a job once: looks up each file that it wants, once, in the order in which its run looks for them, then writes
/// its `.bbl` and its `.blg`, and writes the log to `out`. Returns the exit status.
///
/// A file that is refused is reported on `err`, and counts as missing. A file that can't be written is reported on
/// `err`, the exit status is 3, and nothing is written after it. After its first failure neither `out` nor `err` is
/// written to again. The only error is out of memory; then nothing was written to the folder. The memory of the job
/// isn't freed before the program ends.
pub fn one_shot<F: Folder, O: Sink, E: Sink>(
    alloc: Global,
    options: &Options,
    folder: &mut F,
    out: &mut O,
    err: &mut E,
) -> Result<u8, AllocError>
    requires root { is_root_name options.now.root ≡ true }
    requires folder { (F.seen folder.old).failures < 2 ^ 64 - 1 }
    requires out { (O.seen out.old).failures < 2 ^ 64 - 1 }
    requires err { (E.seen err.old).failures < 2 ^ 64 - 1 }
    ensures ok { IfOk result (Runs options.now.root options.now.min options.now.terse (F.seen folder.old)
        (F.seen folder.new)
        (O.seen out.old) (O.seen out.new)
        (E.seen err.old) (E.seen err.new)) }
    ensures err { OnErr result (Stops options.now.root options.now.min (F.seen folder.old) (F.seen folder.new)
        (O.seen out.old) (O.seen out.new)
        (E.seen err.old) (E.seen err.new)) }
{
    let root = options.root.as_slice();
    let bbl = Bytes::of(alloc, &[root, b".bbl"])?;
    let blg = Bytes::of(alloc, &[root, b".blg"])?;
    let failures_before = err.failures();
    let snapshot = load(alloc, options, folder, err, failures_before)?;
    let outputs = Outputs {
        snapshot: &snapshot,
        bbl: bbl.as_slice(),
        blg: blg.as_slice(),
        log: printed_log(&snapshot, options.terse),
    };
    let status = write_out(&outputs, folder, out, err, failures_before);
    // The program ends after its job, which frees all texts at once.
    forget(snapshot);
    Ok(status)
}
