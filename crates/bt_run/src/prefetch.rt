//! Prefetching of entries.
//!
//! A step's entry is spread over about thirty cache lines, linked by pointers. If the list is too long for the
//! processor's caches, the step waits for one line after another. So before each step, the run touches the next entries,
//! one pointer deeper for each step nearer: three steps away the entry itself, two steps away its key, variables and
//! fields, one step away their lists, and for the step that runs now the first byte of each text. Most pointers are in the
//! cache by then, so these waits overlap.

use bt_actions::Entry;

/// The fewest entries for which this pays: 1,000 entries of thirty lines of 64 bytes are 2 MB, which is about a
/// second-level cache.
const LEAST_ENTRIES: usize = 1_000;

/// How many strings of an entry are touched at most. Few styles declare more.
const MOST_TEXTS: usize = 32;

/// Touches the entries for which a command takes steps. It changes nothing but the time that they take.
#[derive(Drop)]
pub struct Prefetch {
    is_on: bool,
}

fn entry_at<'a>(entries: &'a [Entry], place: Option<&usize>) -> Option<&'a Entry> {
    entries.get(*place?)
}

/// The first byte, or 0 if there is none.
fn first_byte(text: &[u8]) -> usize {
    text.first().map_or(0, |byte| *byte as usize)
}

fn touch_parts(entry: &Entry) -> usize {
    let variables = entry.variables.numbers.len() | entry.variables.texts.len();
    variables | entry.key.len() | entry.fields.len()
}

fn touch_lists(entry: &Entry) -> usize {
    let texts = &entry.variables.texts;
    let number = entry.variables.numbers.get(0) == Some(&0);
    let mut bits = number as usize | first_byte(entry.key.as_slice());
    'texts: for n in 0..texts.len().min(MOST_TEXTS) {
        bits |= texts.get(n).map_or(0, |text| text.len());
    }
    bits | entry.fields.touch_places()
}

fn touch_texts(entry: &Entry) -> usize {
    let texts = &entry.variables.texts;
    let mut bits: usize = 0;
    'texts: for n in 0..texts.len().min(MOST_TEXTS) {
        bits |= texts.get(n).map_or(0, |text| first_byte(text.as_slice()));
    }
    bits | entry.fields.touch_texts()
}

impl Prefetch {
    /// For a command that takes this many steps.
    pub fn of(count: usize) -> Prefetch {
        Prefetch {
            is_on: count >= LEAST_ENTRIES,
        }
    }

    /// Touches the entries of the steps that are left, which are for these places.
    ///
    /// The compiler drops reads that nothing depends on. So all bits are put together, and if they are all set, which they
    /// never are, this stops. The compiler mustn't see that nothing else comes of it, so the function isn't inlined.
    #[inline(never)]
    pub fn touch(&mut self, entries: &[Entry], left: &[usize]) {
        if !self.is_on {
            return;
        }
        let mut bits: usize = 0;
        if let Some(entry) = entry_at(entries, left.get(3)) {
            bits |= entry.function.is_some() as usize;
        }
        if let Some(entry) = entry_at(entries, left.get(2)) {
            bits |= touch_parts(entry);
        }
        if let Some(entry) = entry_at(entries, left.get(1)) {
            bits |= touch_lists(entry);
        }
        if let Some(entry) = entry_at(entries, left.first()) {
            bits |= touch_texts(entry);
        }
        if bits == usize::MAX {
            self.is_on = false;
        }
    }
}
