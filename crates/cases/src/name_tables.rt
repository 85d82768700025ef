//! Cases of names that match without regard to case: scripts of calls on a list of names, or on a table of values by
//! names.

use crate::Done;
use crate::answer::{Answer, Spelled, put};
use crate::words::Words;
use bt_text::{ByName, NameList};

fn push_new(step: Words<'_>, out: &mut Answer, name: &[u8], names: &mut NameList) -> Done {
    if names.find(step.alloc, name)?.is_some() {
        put!(out; "old");
    } else {
        names.push(step.alloc, name)?;
        put!(out; "new");
    }
    Ok(())
}

fn push_found(step: Words<'_>, out: &mut Answer, name: &[u8], names: &NameList) -> Done {
    match names.find(step.alloc, name)? {
        Some(found) => put!(out; *found),
        None => put!(out; "."),
    }
    Ok(())
}

/// Appends a name if it is new; or whether a name is in the list, how it was spelled first, or how many there are.
fn push_listed(step: Words<'_>, out: &mut Answer, names: &mut NameList) -> Done {
    let name = step.text(1)?;
    out.more(" ");
    match step.word(0) {
        "push" => push_new(step, out, &name, names)?,
        "has" => put!(out; names.has(step.alloc, &name)?),
        "find" => push_found(step, out, &name, names)?,
        _ => put!(out; names.as_slice().len()),
    }
    Ok(())
}

pub fn push_list_answer(words: Words<'_>, out: &mut Answer) -> Done {
    let mut names = NameList::new(words.alloc);
    for word in words.after(1) {
        push_listed(words.parts(word), out, &mut names)?;
    }
    Ok(())
}

fn put_new(name: Vec<u8>, value: usize, table: &mut ByName<usize>) -> Done {
    table.make_room()?;
    table.put(name, value);
    Ok(())
}

/// What a table has for a name: its value, the value of a name in small letters, its place, or whether it has a value;
/// or all values.
fn push_asked(step: Words<'_>, out: &mut Answer, name: &[u8], table: &ByName<usize>) -> Done {
    out.more(" ");
    match step.word(0) {
        "get" => put!(out; table.get(step.alloc, name)?.copied()),
        "get_small" => put!(out; table.get_small(name).copied()),
        "place" => put!(out; table.place(step.alloc, name)?),
        "has" => put!(out; table.has(step.alloc, name)?),
        _ => out.list("", table.values(), ",", ""),
    }
    Ok(())
}

fn push_tabled(step: Words<'_>, out: &mut Answer, table: &mut ByName<usize>) -> Done {
    let name = step.text(1)?;
    match step.word(0) {
        "insert" => table.insert(step.alloc, &name, step.count(2)),
        "put" => put_new(name, step.count(2), table),
        _ => push_asked(step, out, &name, table),
    }
}

pub fn push_table_answer(words: Words<'_>, out: &mut Answer) -> Done {
    let mut table = ByName::new(words.alloc);
    for word in words.after(1) {
        push_tabled(words.parts(word), out, &mut table)?;
    }
    Ok(())
}
