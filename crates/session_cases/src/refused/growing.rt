//! What grows: texts, lists, tables of names, and the held line.

use crate::refused::attempt::Case;
use bt_text::{ByName, Bytes, Excerpt, Held, HeldFault, NameList, Sequence, SparseTexts};
use std::alloc::{AllocError, Global};

/// Longer than all that is there before it, and than a line.
const LINE: &[u8] =
    b"A Line of Some Words, longer than the text and the names that are there before it, and some more, so that the held line is broken where it is written, and once more";

/// What grows.
#[derive(Drop)]
pub struct Growing {
    text: Bytes,
    list: Sequence<Bytes>,
    names: NameList,
    values: ByName<usize>,
    texts: SparseTexts,
    held: Held,
    lines: Sequence<Bytes>,
}

fn push_name(alloc: Global, names: &mut NameList, name: &[u8]) -> Result<(), AllocError> {
    if names.find(alloc, name)?.is_none() {
        names.push(alloc, name)?;
    }
    Ok(())
}

/// Out of memory, if a write to the held line reports it.
fn felt(answer: Result<(), HeldFault>) -> Result<(), AllocError> {
    match answer {
        Err(HeldFault::OutOfMemory) => Err(AllocError),
        _ => Ok(()),
    }
}

fn listed(alloc: Global, count: usize) -> Result<Sequence<Bytes>, AllocError> {
    let mut list = Sequence::new(alloc);
    for number in 0..count {
        let text = format!(in alloc; "name {number}")?;
        list.push(Bytes::from_vec(text.into_bytes()))?;
    }
    Ok(list)
}

fn names(alloc: Global) -> Result<NameList, AllocError> {
    let mut names = NameList::new(alloc);
    push_name(alloc, &mut names, b"Name 1")?;
    Ok(names)
}

fn values(alloc: Global) -> Result<ByName<usize>, AllocError> {
    let mut values = ByName::new(alloc);
    for name in ["a", "b", "c", "d", "e", "f", "g", "h", "i"] {
        values.insert(alloc, name.as_bytes(), 1)?;
    }
    Ok(values)
}

fn texts(alloc: Global) -> Result<SparseTexts, AllocError> {
    let mut texts = SparseTexts::new(alloc, 12);
    texts.set(3, Some(Excerpt::copied(alloc, b"text")?))?;
    Ok(texts)
}

fn set(alloc: Global, texts: &mut SparseTexts) -> Result<(), AllocError> {
    let line = Excerpt::copied(alloc, LINE)?;
    texts.set(9, Some(line))
}

/// A line that fills the room that it gets at its beginning.
const HELD: &[u8] =
    b"a-held-line-without-white-space-that-fills-the-room-which-it-gets-when-it-is-beg";

fn held(alloc: Global) -> Result<Held, AllocError> {
    let mut held = Held::new(alloc);
    felt(held.write(alloc, HELD, &mut Sequence::new(alloc)))?;
    Ok(held)
}

impl Growing {
    fn call_on_names(&mut self, alloc: Global, name: &str) -> Result<(), AllocError> {
        match name {
            "push-name" => push_name(alloc, &mut self.names, LINE),
            "insert" => self.values.insert(alloc, LINE, 7),
            _ => self.values.make_room(),
        }
    }
}

impl Case for Growing {
    fn begun(alloc: Global) -> Result<Self, AllocError> {
        // The parts with the largest types are made last, so that fewer requests can fail while they exist.
        let text = Bytes::copied(alloc, b"text")?;
        let list = listed(alloc, 4)?;
        let held = held(alloc)?;
        let texts = texts(alloc)?;
        let values = values(alloc)?;
        let names = names(alloc)?;
        Ok(Growing {
            text,
            list,
            names,
            values,
            texts,
            held,
            lines: Sequence::new(alloc),
        })
    }

    fn call(&mut self, alloc: Global, name: &str) -> Result<(), AllocError> {
        match name {
            "append" => self.text.append(LINE),
            "push" => Ok(self.list.push(Bytes::new(alloc))?),
            "append-list" => self.list.append(listed(alloc, 5)?),
            "set" => set(alloc, &mut self.texts),
            "write" => felt(self.held.write(alloc, LINE, &mut self.lines)),
            "write-a-word" => felt(self.held.write(alloc, b"word", &mut self.lines)),
            "newline" => felt(self.held.newline(alloc, &mut self.lines)),
            _ => self.call_on_names(alloc, name),
        }
    }

    fn seen(&self, alloc: Global) -> Result<Bytes, AllocError> {
        let (text, list, names) = (&self.text, &self.list, self.names.as_slice());
        let (values, texts) = (self.values.values(), &self.texts);
        let (held, lines) = (&self.held, &self.lines);
        let words = format!(in alloc;
            "{text:?} {list:?} {names:?} {values:?} {texts:?} {held:?} {lines:?}"
        )?;
        Ok(Bytes::from_vec(words.into_bytes()))
    }
}
