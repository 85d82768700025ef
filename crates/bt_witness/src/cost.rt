//! What a run of a style on candidates costs. A style may loop for long, or give thousands of messages for each entry. So
//! before hundreds of candidates are run at once, a few are.

use bt_run::Answers;

/// How many candidates are run first.
pub const PROBES: [usize; 2] = [1, 8];

/// What a candidate may cost that is run beside hundreds of others, in calls of built-in functions. In real styles it is
/// less than a third of that.
pub const MOST_COST: usize = 30_000;

/// What a message costs: it is kept, and written into the log.
const MESSAGE_COST: usize = 100;

/// How often a run called built-in functions, if this line of its log says so.
fn calls_in(line: &[u8]) -> Option<usize> {
    let number = line
        .strip_prefix(b"The built-in function-call counts, ".as_slice())?
        .strip_suffix(b" in all, are:".as_slice())?;
    std::str::from_utf8(number).ok()?.parse::<usize>().ok()
}

fn call_count(log: &[u8]) -> usize {
    let mut count = 0;
    for line in log.split(|byte| *byte == b'\n') {
        count = calls_in(line).unwrap_or(count);
    }
    count
}

pub fn cost(run: &Answers) -> usize {
    run.messages
        .len()
        .saturating_mul(MESSAGE_COST)
        .saturating_add(call_count(run.blg.as_slice()))
}
