//! READ: the entries that the databases give for the citations.

ghost use Rattle.std.specs.Prelude.{◌≡◌, map, IfOk, OnOk};
ghost use Rattle.bt_style.specs.Program.{program_of};
ghost use Rattle.bt_run.specs.ReadCommand.{found_for, with_blank_variables, list_order, read};
ghost use Rattle.bt_run.specs.inner.Cases.{read_in};
ghost use Rattle.bt_run.specs.inner.Asked.{question_for};
ghost use Rattle.bt_run.specs.inner.Found.{IsKept};
ghost use Rattle.bt_resolve.specs.inner.Kept.{resolved_for};
ghost use Rattle.bt_run.specs.inner.Alike.{IsAlike};
ghost use Rattle.bt_resolve.specs.declared.question.Question.{Question};
ghost use Rattle.bt_run.specs.inner.JobView.{job_of};

use crate::alike::Alike;
use crate::asking::Asking;
use crate::course::Course;
use crate::database_messages::tell_databases;
use crate::declarations::blank;
use crate::finding::{find, resolve_asked};
use crate::job::Job;
use crate::kept_resolution::KeptResolution;
use bt_actions::{Entry, Variables};
use bt_resolve::Resolved;
use bt_style::Style;
use bt_text::{Sequence, Shared};
use std::alloc::{AllocError, Global};

/// Finds what READ asks, and returns which entries of what it found before stay.
fn find_for(
    job: Job<'_>,
    number: usize,
    kept: &mut Option<KeptResolution>,
) -> Result<Alike, AllocError>
    ensures kept { OnOk result (IsKept kept.new (question_for (job_of job.entry) number)) }
    ensures alike { IfOk result (λ alike. (was : Question) → IsKept kept.old was →
        IsAlike alike (resolved_for was) (resolved_for (question_for (job_of job.entry) number))) }
{
    let asking = Asking::at(job, number)?;
    let alike = find(job.alloc, asking, kept)?;
    Ok(alike)
}

fn found(job: Job<'_>, number: usize) -> Result<Resolved, AllocError>
    ensures { IfOk result (λ all. all ≡ found_for (job_of job.entry) number) }
{
    let asking = Asking::at(job, number)?;
    let all = resolve_asked(job.alloc, &asking)?;
    Ok(all)
}

fn entered(entry: &bt_resolve::Entry, first: &Shared<Variables>) -> Result<Entry, AllocError>
    ensures { IfOk result (λ e. e
        ≡ record {
          key = entry.now.key;
          kind = entry.now.kind;
          function = entry.now.function;
          fields = entry.now.fields;
          variables = first.now;
        }) }
{
    Ok(Entry {
        key: entry.key.share()?,
        kind: entry.kind.share()?,
        function: entry.function,
        fields: entry.fields.share()?,
        variables: first.share()?,
    })
}

fn all_entered(
    alloc: Global,
    style: &Style,
    entries: &[bt_resolve::Entry],
) -> Result<Sequence<Entry>, AllocError>
    ensures { IfOk result (λ all. all ≡ map (with_blank_variables (program_of style.now)) entries.now) }
{
    let numbers = style.entry_numbers.as_slice();
    let texts = style.entry_texts.as_slice();
    let first = Shared::new(alloc, blank(alloc, numbers, texts)?)?;
    let mut all = Sequence::new(alloc);
    'entries: for entry in entries {
        all.push(entered(entry, &first)?)?;
    }
    Ok(all)
}

/// An entry as a style begins with it.
pub fn blank_entry(
    alloc: Global,
    style: &Style,
    entry: &bt_resolve::Entry,
) -> Result<Entry, AllocError>
    ensures { IfOk result (λ e. e ≡ with_blank_variables (program_of style.now) entry.now) }
{
    let numbers = style.entry_numbers.as_slice();
    let texts = style.entry_texts.as_slice();
    let first = Shared::new(alloc, blank(alloc, numbers, texts)?)?;
    entered(entry, &first)
}

fn list_order(alloc: Global, entries: &[Entry]) -> Result<Sequence<usize>, AllocError>
    ensures { IfOk result (λ order. order ≡ list_order entries.now) }
{
    let mut order = Sequence::new(alloc);
    let count = entries.len();
    'places: for place in 0..count {
        order.push(place)?;
    }
    Ok(order)
}

/// Puts into a run what the databases give: the entries with their variables, the list order, the preamble, and what is
/// reported.
fn enter(job: Job<'_>, found: &Resolved, course: &mut Course) -> Result<(), AllocError>
    ensures { OnOk result (course.new
        ≡ read_in (program_of job.entry.style.now) job.entry.databases.now found.now course.old) }
{
    let messages = found.messages.as_slice();
    tell_databases(job.alloc, &mut course.log, job.databases, messages)?;
    let entries = all_entered(job.alloc, job.style, found.entries.as_slice())?;
    let preamble = found.preamble.share()?;
    course.order = list_order(job.alloc, entries.as_slice())?;
    course.entries = entries;
    course.preamble = preamble;
    Ok(())
}

/// Reads the databases. What READ finds is kept. Returns which entries of what it found before stay.
pub fn read(
    job: Job<'_>,
    number: usize,
    course: &mut Course,
    kept: &mut Option<KeptResolution>,
) -> Result<Alike, AllocError>
    ensures run { OnOk result (course.new ≡ read (job_of job.entry) number course.old) }
    ensures kept { OnOk result (IsKept kept.new (question_for (job_of job.entry) number)) }
    ensures alike { IfOk result (λ alike. (was : Question) → IsKept kept.old was →
        IsAlike alike (resolved_for was) (resolved_for (question_for (job_of job.entry) number))) }
{
    let alike = find_for(job, number, kept)?;
    match kept {
        None => Ok(alike),
        Some(kept) => {
            enter(job, kept.resolution.resolved(), course)?;
            Ok(alike)
        }
    }
}

/// Reads the databases for a run that keeps nothing of what they give.
pub fn read_once(job: Job<'_>, number: usize, course: &mut Course) -> Result<(), AllocError>
    ensures { OnOk result (course.new ≡ read (job_of job.entry) number course.old) }
{
    let all = found(job, number)?;
    enter(job, &all, course)?;
    Ok(())
}
