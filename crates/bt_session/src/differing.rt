//! Where two texts differ.
//!
//! Both ends are compared in steps of `STEP` bytes first, since slices compare faster than single bytes: an editor's
//! change leaves most of a text as it is.

ghost use Rattle.std.specs.Prelude.{◌≡◌, ◌≤◌, ◌<◌, ◌-◌, ◌++◌, length, take, drop};
ghost use Rattle.bt_bib.specs.Splice.{IsSplice};

use bt_bib::Splice;

/// How many bytes are compared at once.
const STEP: usize = 4096;

/// How a text becomes another: the bytes of the new one from `start` up to `new_end` take the place of the bytes from
/// `start` up to `end`.
#[derive(Clone, Copy, Debug, PartialEq, Eq)]
struct Difference {
    start: usize,
    end: usize,
    new_end: usize,
}

/// The common bytes at the beginnings of two texts, rounded down to steps of this many bytes.
fn front_by(step: usize, old: &[u8], new: &[u8]) -> usize
    requires { 0 < step }
    ensures old { result ≤ length old.now }
    ensures new { result ≤ length new.now }
    ensures same { take result old.now ≡ take result new.now }
{
    let mut count = 0;
    let mut old_rest = old;
    let mut new_rest = new;
    'steps: while old_rest.len() >= step && new_rest.len() >= step {
        let (old_part, old_others) = old_rest.split_at(step);
        let (new_part, new_others) = new_rest.split_at(step);
        if old_part != new_part {
            return count;
        }
        count += step;
        old_rest = old_others;
        new_rest = new_others;
    }
    count
}

/// The common bytes at the ends of two texts, rounded down to steps of this many bytes.
fn back_by(step: usize, old: &[u8], new: &[u8]) -> usize
    requires { 0 < step }
    ensures old { result ≤ length old.now }
    ensures new { result ≤ length new.now }
    ensures same { drop (length old.now - result) old.now ≡ drop (length new.now - result) new.now }
{
    let mut count = 0;
    let mut old_rest = old;
    let mut new_rest = new;
    'steps: while old_rest.len() >= step && new_rest.len() >= step {
        let (old_others, old_part) = old_rest.split_at(old_rest.len() - step);
        let (new_others, new_part) = new_rest.split_at(new_rest.len() - step);
        if old_part != new_part {
            return count;
        }
        count += step;
        old_rest = old_others;
        new_rest = new_others;
    }
    count
}

fn common_front(old: &[u8], new: &[u8]) -> usize
    ensures old { result ≤ length old.now }
    ensures new { result ≤ length new.now }
    ensures same { take result old.now ≡ take result new.now }
{
    let count = front_by(STEP, old, new);
    let (_, old_rest) = old.split_at(count);
    let (_, new_rest) = new.split_at(count);
    count + front_by(1, old_rest, new_rest)
}

fn common_back(old: &[u8], new: &[u8]) -> usize
    ensures old { result ≤ length old.now }
    ensures new { result ≤ length new.now }
    ensures same { drop (length old.now - result) old.now ≡ drop (length new.now - result) new.now }
{
    let count = back_by(STEP, old, new);
    let (old_rest, _) = old.split_at(old.len() - count);
    let (new_rest, _) = new.split_at(new.len() - count);
    count + back_by(1, old_rest, new_rest)
}

/// How a text becomes another.
fn difference_of(old: &[u8], new: &[u8]) -> Difference
    ensures order { result.start ≤ result.new_end }
    ensures within { result.new_end ≤ length new.now }
    ensures old_order { result.start ≤ result.end }
    ensures old_within { result.end ≤ length old.now }
    ensures same { new.now ≡ take result.start old.now
        ++ take (result.new_end - result.start) (drop result.start new.now) ++ drop result.end old.now }
{
    let start = common_front(old, new);
    let (_, old_rest) = old.split_at(start);
    let (_, new_rest) = new.split_at(start);
    let back = common_back(old_rest, new_rest);
    Difference {
        start,
        end: old.len() - back,
        new_end: new.len() - back,
    }
}

/// The splice that makes one text of another.
pub fn splice_between(old: &[u8], new: &[u8]) -> Splice
    ensures { IsSplice old.now new.now result.begin result.end result.inserted }
{
    let Difference {
        start,
        end,
        new_end,
    } = difference_of(old, new);
    Splice {
        begin: start,
        end,
        inserted: new_end - start,
    }
}
