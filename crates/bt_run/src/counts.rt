//! How often each built-in function was called in a run, and the lines of the log that tell it.
//!
//! A sum that doesn't fit 64 bits counts as out of memory: no run lives to see it.

ghost use Rattle.std.specs.Prelude.{◌≡◌, ℕ, ◌+◌, ◌++◌, ◌<◌, map, sum_by, slice_index_or, codes, decimal, IfOk, OnOk};
ghost use Rattle.bt_style.specs.Builtins.{place_of, name_of};
ghost use Rattle.bt_run.specs.Counts.{all_calls, counts_told, total_line, function_line};
ghost use Rattle.bt_run.specs.inner.Cases.{count_message};
ghost use Rattle.bt_run.specs.inner.Steps.{calls_in};
ghost use Rattle.bt_run.specs.inner.Calls.{AreCalls};

use crate::course::Step;
use bt_log::{Message, Rank};
use bt_style::{BUILTIN_COUNT, Builtin};
use bt_text::{Sequence, Shared};
use itoa::Buffer;
use std::alloc::{AllocError, Global};

/// How often each built-in function was called in some steps together, by its place in the table.
pub type Calls = [u64; BUILTIN_COUNT];

/// The lines that `tell_counts` adds: the total, and one for each function.
pub const COUNT_LINES: usize = BUILTIN_COUNT + 1;

/// Adds how often a step called each.
pub fn add_calls(sums: &mut Calls, calls: &[u32; BUILTIN_COUNT]) -> Result<(), AllocError>
    ensures { OnOk result ((place : ℕ) → place < 37 →
        slice_index_or sums.new place 0 ≡ slice_index_or sums.old place 0 + slice_index_or calls.now place 0) }
{
    'places: for place in 0..BUILTIN_COUNT {
        let sum = sums[place].checked_add(u64::from(calls[place]));
        sums[place] = sum.ok_or(AllocError)?;
    }
    Ok(())
}

pub fn count_calls(steps: &[Shared<Step>]) -> Result<Calls, AllocError>
    ensures { IfOk result (AreCalls steps.now) }
{
    let mut calls = [0; BUILTIN_COUNT];
    'steps: for step in steps {
        add_calls(&mut calls, &step.outcome.calls)?;
    }
    Ok(calls)
}

fn calls_of(calls: &Calls, builtin: Builtin) -> u64
    ensures { result ≡ calls_in calls.now (place_of builtin) }
{
    calls[builtin.place()]
}

fn sum_of_calls(calls: &Calls, builtins: &[Builtin]) -> Result<u64, AllocError>
    ensures { IfOk result (λ sum. sum ≡ sum_by (λ b. calls_in calls.now (place_of b)) builtins.now) }
{
    let mut sum: u64 = 0;
    'builtins: for builtin in builtins {
        sum = sum
            .checked_add(calls_of(calls, *builtin))
            .ok_or(AllocError)?;
    }
    Ok(sum)
}

#[tactic(auto, unfolding(crate::specs::Counts::all_calls, bt_style::specs::Builtins::table))]
fn all_calls(calls: &Calls) -> Result<u64, AllocError>
    ensures { IfOk result (λ count. count ≡ all_calls (calls_in calls.now)) }
{
    let count = sum_of_calls(calls, Builtin::ALL.as_slice())?;
    Ok(count)
}

/// The line before the counts.
fn total_told(alloc: Global, count: u64) -> Result<Message, AllocError>
    ensures { IfOk result (λ message. message ≡ total_line count) }
{
    let mut buffer = Buffer::new();
    let count = buffer.format(count).as_bytes();
    Message::of(
        alloc,
        Rank::CallCount,
        &[
            b"The built-in function-call counts, ",
            count,
            b" in all, are:",
        ],
    )
}

fn count_line(alloc: Global, name: &[u8], count: u64) -> Result<Message, AllocError>
    ensures { IfOk result (λ message. message ≡ count_message (name.now ++ codes " -- " ++ decimal count)) }
{
    let mut buffer = Buffer::new();
    let count = buffer.format(count).as_bytes();
    Message::of(alloc, Rank::CallCount, &[name, b" -- ", count])
}

fn row_told(alloc: Global, builtin: Builtin, count: u64) -> Result<Message, AllocError>
    ensures { IfOk result (λ message. message ≡ count_message (name_of builtin ++ codes " -- " ++ decimal count)) }
{
    count_line(alloc, builtin.name(), count)
}

fn tell_rows(
    alloc: Global,
    log: &mut Sequence<Message>,
    calls: &Calls,
    builtins: &[Builtin],
) -> Result<(), AllocError>
    ensures { OnOk result (log.new ≡ log.old ++ map (function_line (calls_in calls.now)) builtins.now) }
{
    'builtins: for builtin in builtins {
        let count = calls_of(calls, *builtin);
        log.push(row_told(alloc, *builtin, count)?)?;
    }
    Ok(())
}

/// Logs the counts of calls, function by function in the order of the table. After out of memory some of these lines may
/// be there.
pub fn tell_counts(
    alloc: Global,
    log: &mut Sequence<Message>,
    calls: &Calls,
) -> Result<(), AllocError>
    ensures { OnOk result (log.new ≡ log.old ++ counts_told (calls_in calls.now)) }
{
    let count = all_calls(calls)?;
    log.push(total_told(alloc, count)?)?;
    tell_rows(alloc, log, calls, Builtin::ALL.as_slice())?;
    Ok(())
}
