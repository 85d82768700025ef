//! What silently goes wrong in an entry: a name that ends in a comma, and a `crossref` spelled unlike its parent's key.

use crate::hints::quick_look::{is_database, may_be_wrong};
use crate::hints::{Hints, Job};
use bt_bib::{Content, Entry, Field, Items, Part, Piece, read_bib};
use bt_job::File;
use bt_text::{Bytes, eq_ignore_ascii_case};
use indexmap::{IndexMap, IndexSet};
use std::alloc::{AllocError, Global};

/// Keys without regard to case.
type Keys = IndexSet<Vec<u8>>;

pub fn folded(alloc: Global, key: &[u8]) -> Result<Vec<u8>, AllocError> {
    let mut folded = Vec::from_slice(alloc, key)?;
    folded.as_mut_slice().make_ascii_lowercase();
    Ok(folded)
}

fn cited(alloc: Global, files: &[File]) -> Result<Keys, AllocError> {
    let mut keys = IndexSet::new(alloc);
    'files: for file in files {
        if file.name.as_slice().ends_with(b".aux") {
            cite_all(alloc, &mut keys, file.text.as_slice())?;
        }
    }
    Ok(keys)
}

fn cite_all(alloc: Global, keys: &mut Keys, text: &[u8]) -> Result<(), AllocError> {
    let items = bt_bib::read_aux(alloc, text)?;
    'items: for item in items.as_slice() {
        if item.command == bt_bib::Command::Citation {
            'keys: for key in item.parts.as_slice() {
                let _ = keys.insert(folded(alloc, key.as_slice())?)?;
            }
        }
    }
    Ok(())
}

fn entry(piece: &Piece) -> Option<(&Entry, &[u8])> {
    let Piece::Item(item) = piece else {
        return None;
    };
    let Content::Entry(entry) = &item.content else {
        return None;
    };
    let key = entry.key.as_ref()?;
    Some((entry, key.as_slice()))
}

fn plain(field: &Field) -> Option<&[u8]> {
    match field.value.as_slice().first()? {
        Part::Text(text) if field.value.len() == 1 => Some(text.as_slice()),
        _ => None,
    }
}

fn is_named(field: &Field, name: &[u8]) -> bool {
    eq_ignore_ascii_case(field.name.as_slice(), name)
}

/// A name of a list as far as it was read.
#[derive(Drop)]
struct Name {
    text: Bytes,
    /// How many braces are open.
    depth: usize,
    /// How many commas stand outside of braces.
    commas: usize,
}

impl Name {
    fn new(alloc: Global) -> Name {
        Name {
            text: Bytes::new(alloc),
            depth: 0,
            commas: 0,
        }
    }

    fn push(&mut self, word: &[u8]) -> Result<(), AllocError> {
        'bytes: for byte in word {
            match *byte {
                b'{' => self.depth = self.depth.saturating_add(1),
                b'}' => self.depth = self.depth.saturating_sub(1),
                b',' if self.depth == 0 => self.commas = self.commas.saturating_add(1),
                _ => {}
            }
        }
        if self.text.len() > 0 {
            self.text.append(b" ")?;
        }
        self.text.append(word)
    }

    fn is_ended_by(&self, word: &[u8]) -> bool {
        self.depth == 0 && word.eq_ignore_ascii_case(b"and")
    }

    /// Whether it has two commas, of which one is at its end: what stands between them is Jr then.
    fn ends_in_second_comma(&self) -> bool {
        self.depth == 0 && self.commas == 2 && self.text.as_slice().ends_with(b",")
    }
}

fn may_end_in_comma(names: &[u8]) -> bool {
    let mut is_behind_comma = false;
    'words: for word in names.split(|byte| byte.is_ascii_whitespace()) {
        if is_behind_comma && word.eq_ignore_ascii_case(b"and") {
            return true;
        }
        if !word.is_empty() {
            is_behind_comma = word.ends_with(b",");
        }
    }
    is_behind_comma
}

/// The first of these names that ends in a second comma.
fn with_comma(alloc: Global, names: &[u8]) -> Result<Option<Bytes>, AllocError> {
    let mut name = Name::new(alloc);
    'words: for word in names.split(|byte| byte.is_ascii_whitespace()) {
        if name.is_ended_by(word) {
            if name.ends_in_second_comma() {
                return Ok(Some(name.text));
            }
            name = Name::new(alloc);
        } else if !word.is_empty() {
            name.push(word)?;
        }
    }
    Ok(if name.ends_in_second_comma() {
        Some(name.text)
    } else {
        None
    })
}

fn hint_at_names(
    alloc: Global,
    hints: &mut Hints<'_>,
    key: &[u8],
    field: &Field,
) -> Result<(), AllocError> {
    if !is_named(field, b"author") && !is_named(field, b"editor") {
        return Ok(());
    }
    if let Some(names) = plain(field)
        && may_end_in_comma(names)
        && let Some(name) = with_comma(alloc, names)?
    {
        hints.give(&[
            b"hint: delete the comma at the end of the name \"",
            name.as_slice(),
            b"\" in the entry ",
            key,
            b"; with it, the text between the commas counts as Jr\n",
        ]);
    }
    Ok(())
}

/// The keys of all entries by their lower-case forms.
type Spellings = IndexMap<Vec<u8>, Bytes>;

fn hint_at_parent(
    alloc: Global,
    hints: &mut Hints<'_>,
    spellings: &Spellings,
    key: &[u8],
    field: &Field,
) -> Result<(), AllocError> {
    if !is_named(field, b"crossref") {
        return Ok(());
    }
    if let Some(parent) = plain(field)
        && let Some(spelling) = spellings.get(folded(alloc, parent)?.as_slice())
        && spelling.as_slice() != parent
    {
        hints.give(&[
            b"hint: the entry ",
            key,
            b" has crossref = {",
            parent,
            b"}, but the key is ",
            spelling.as_slice(),
            b"; spell both alike\n",
        ]);
    }
    Ok(())
}

fn spell(alloc: Global, spellings: &mut Spellings, key: &[u8]) -> Result<(), AllocError> {
    let low = folded(alloc, key)?;
    if !spellings.contains_key(low.as_slice()) {
        let _ = spellings.insert(low, Bytes::copied(alloc, key)?)?;
    }
    Ok(())
}

/// The first of a key counts.
fn spellings(alloc: Global, databases: &[Items]) -> Result<Spellings, AllocError> {
    let mut spellings = IndexMap::new(alloc);
    'databases: for database in databases {
        'pieces: for placed in database.pieces() {
            if let Some((_, key)) = entry(&placed.piece) {
                spell(alloc, &mut spellings, key)?;
            }
        }
    }
    Ok(spellings)
}

/// An entry, and its key.
type Keyed<'a> = (&'a Entry, &'a [u8]);

fn entries_of<'a>(
    alloc: Global,
    keys: &Keys,
    databases: &'a [Items],
) -> Result<Vec<Keyed<'a>>, AllocError> {
    let all = keys.contains(b"*".as_slice());
    let mut entries = Vec::new(alloc);
    'databases: for database in databases {
        'pieces: for placed in database.pieces() {
            if let Some((entry, key)) = entry(&placed.piece)
                && (all || keys.contains(folded(alloc, key)?.as_slice()))
            {
                entries.push((entry, key))?;
            }
        }
    }
    Ok(entries)
}

fn hint_at_all_names(
    alloc: Global,
    hints: &mut Hints<'_>,
    entries: &[Keyed<'_>],
) -> Result<(), AllocError> {
    'entries: for (entry, key) in entries {
        'fields: for field in entry.fields.as_slice() {
            hint_at_names(alloc, hints, key, field)?;
        }
    }
    Ok(())
}

fn hint_at_all_parents(
    alloc: Global,
    hints: &mut Hints<'_>,
    entries: &[Keyed<'_>],
    spellings: &Spellings,
) -> Result<(), AllocError> {
    'entries: for (entry, key) in entries {
        'fields: for field in entry.fields.as_slice() {
            hint_at_parent(alloc, hints, spellings, key, field)?;
        }
    }
    Ok(())
}

fn has_parent(entry: &Entry) -> bool {
    entry
        .fields
        .as_slice()
        .iter()
        .any(|field| is_named(field, b"crossref"))
}

fn read_all(alloc: Global, files: &[File]) -> Result<Vec<Items>, AllocError> {
    let mut databases = Vec::new(alloc);
    'files: for file in files {
        if is_database(file) {
            databases.push(read_bib(alloc, file.text.as_slice())?)?;
        }
    }
    Ok(databases)
}

fn hint_at_entries(
    alloc: Global,
    hints: &mut Hints<'_>,
    entries: &[Keyed<'_>],
    databases: &[Items],
) -> Result<(), AllocError> {
    hint_at_all_names(alloc, hints, entries)?;
    if entries.iter().any(|(entry, _)| has_parent(entry)) {
        let spellings = spellings(alloc, databases)?;
        hint_at_all_parents(alloc, hints, entries, &spellings)?;
    }
    Ok(())
}

fn hint_at_cited(
    alloc: Global,
    hints: &mut Hints<'_>,
    files: &[File],
    databases: &[Items],
) -> Result<(), AllocError> {
    let keys = cited(alloc, files)?;
    let entries = entries_of(alloc, &keys, databases)?;
    hint_at_entries(alloc, hints, entries.as_slice(), databases)
}

/// Hints at the entries that the document cites. The run keeps none of them, so the databases are read once more, but
/// only if a quick look at their texts says that there may be something to hint at.
pub fn hint(alloc: Global, hints: &mut Hints<'_>, job: Job<'_>) -> Result<(), AllocError> {
    if hints.is_full() || !may_be_wrong(alloc, job.files)? {
        return Ok(());
    }
    let databases = read_all(alloc, job.files)?;
    hint_at_cited(alloc, hints, job.files, databases.as_slice())
}
