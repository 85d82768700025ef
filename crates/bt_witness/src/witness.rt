//! Searches for an entry that triggers a fault: the machine runs the style on candidates, and an entry counts only if the
//! run gives the message.

use crate::cost::{MOST_COST, PROBES, cost};
use crate::filling::{Filling, Rest, entry, fields};
use bt_check::{Fault, FaultKind};
use bt_front::run;
use bt_job::File;
use bt_log::{Message, Rank, Said};
use bt_run::Answers;
use bt_style::{Builtin, Style};
use bt_text::{Bytes, Shared};
use std::alloc::{AllocError, Global};

#[derive(Drop)]
struct Candidate {
    fault: usize,
    key: Bytes,
    written: Bytes,
    /// The entry as it is shown, with the key `a`.
    shown: Bytes,
}

/// How much is tried. A run of the style takes a fraction of a millisecond for a candidate.
#[derive(Clone, Copy, PartialEq, Eq)]
pub enum Effort {
    /// As much as fits between two keystrokes.
    Brief,
    Thorough,
}

impl Effort {
    /// How many candidates a run has at most.
    fn most_candidates(self) -> usize {
        match self {
            Effort::Brief => 72,
            Effort::Thorough => 900,
        }
    }
}

const NAMES: [&[u8]; 3] = [
    b"Ann Bee and Carl Dee",
    b"Ann Bee",
    b"Ann Bee and Carl Dee and Eva Foo and others",
];

const PARENT: &[u8] =
    b"@book{parent, title = {Parent}, editor = {Pat Parent}, year = {1990}, publisher = {P}}\n";

/// The types of entries for a fault of a step that all entries run.
const SOME_TYPES: [&[u8]; 4] = [b"article", b"book", b"misc", b"inproceedings"];

/// The beginning and the end of the words with which a run reports a fault.
fn words_of(fault: &Fault) -> (&'static [u8], &'static [u8]) {
    match fault.kind {
        FaultKind::Empty => (b"You can't pop an empty literal stack", b""),
        FaultKind::Kind => match fault.by {
            Some(by) => (by.name(), b" got a value of the wrong kind"),
            None => (b"", b" got a value of the wrong kind"),
        },
        FaultKind::Entry => (b"You can't mess with entries here", b""),
        FaultKind::Variable => (b":= needs a variable", b""),
        FaultKind::Left => (b"The literal stack isn't empty", b""),
        FaultKind::Case => (b"", b" is an illegal case-conversion string"),
        FaultKind::Character => match fault.by {
            Some(Builtin::ChrToInt) => (b"", b" isn't a single character"),
            _ => (b"", b" isn't valid ASCII"),
        },
        FaultKind::Loop | FaultKind::Unknown | FaultKind::Recursion => (b"", b"\n"),
    }
}

#[derive(Clone, Copy, PartialEq, Eq)]
enum Search {
    /// Nothing, the common fields and all of them.
    Short,
    /// Each field alone, with the common ones, or left out.
    Long,
}

fn own_type<'a>(style: &'a Style, fault: &Fault) -> Option<&'a [u8]> {
    let function = style.functions.as_slice().get(fault.step.entry_type?)?;
    if function.name.as_slice() == b"default.type".as_slice() {
        Some(b"zzz")
    } else {
        Some(function.name.as_slice())
    }
}

fn add_rests(rests: &mut Vec<Rest>, fields: usize, search: Search) -> Result<(), AllocError> {
    match search {
        Search::Short => rests.extend_from_slice(&[Rest::Nothing, Rest::Common, Rest::All]),
        Search::Long => {
            for field in 0..fields {
                rests.extend_from_slice(&[
                    Rest::Only(field),
                    Rest::CommonAnd(field),
                    Rest::AllBut(field),
                ])?;
            }
            Ok(())
        }
    }
}

fn fillings(alloc: Global, style: &Style, search: Search) -> Result<Vec<Filling>, AllocError> {
    let mut rests = Vec::new(alloc);
    add_rests(&mut rests, style.fields.len(), search)?;
    let names: &[&'static [u8]] = if search == Search::Short {
        &NAMES
    } else {
        &NAMES[..1]
    };
    let mut fillings = Vec::new(alloc);
    for rest in &rests {
        for names in names {
            for is_blank in [false, true] {
                fillings.push(Filling {
                    rest: *rest,
                    names: *names,
                    is_blank,
                })?;
            }
        }
    }
    Ok(fillings)
}

#[derive(Drop)]
struct Hunt<'a> {
    alloc: Global,
    style: &'a Style,
    text: &'a [u8],
    faults: &'a [Fault],
    most_candidates: usize,
    candidates: Vec<Candidate>,
    /// For each fault an entry that triggers it.
    found: Vec<Option<Bytes>>,
}

fn key_of(alloc: Global, number: usize) -> Result<Bytes, AllocError> {
    Bytes::copied(alloc, format!(in alloc; "e{number}")?.as_bytes())
}

fn number_of(key: &[u8]) -> Option<usize> {
    let digits = key.strip_prefix(b"e".as_slice())?;
    std::str::from_utf8(digits).ok()?.parse::<usize>().ok()
}

fn candidate_of(message: &Message) -> Option<usize> {
    match &message.entry {
        Some(key) => number_of(key.as_slice()),
        None => None,
    }
}

fn says(message: &Message, fault: &Fault) -> bool {
    let (begins, ends) = words_of(fault);
    match &message.said {
        Said::Words(words) => {
            message.rank == Rank::Error
                && words.as_slice().starts_with(begins)
                && words.as_slice().ends_with(ends)
        }
        Said::OfFile { .. } => false,
    }
}

impl<'a> Hunt<'a> {
    fn is_found(&self, fault: usize) -> bool {
        match self.found.get(fault) {
            Some(found) => found.is_some(),
            None => true,
        }
    }

    fn add(
        &mut self,
        place: usize,
        fault: &Fault,
        filling: Filling,
        entry_type: &[u8],
    ) -> Result<(), AllocError> {
        if self.candidates.len() >= self.most_candidates {
            return Ok(());
        }
        let key = key_of(self.alloc, self.candidates.len())?;
        let fields = fields(self.alloc, self.style, fault, filling)?;
        let fields = fields.as_slice();
        let written = entry(self.alloc, entry_type, key.as_slice(), fields)?;
        let shown = entry(self.alloc, entry_type, b"a", fields)?;
        self.candidates.push(Candidate {
            fault: place,
            key,
            written,
            shown,
        })?;
        Ok(())
    }

    fn add_all(
        &mut self,
        place: usize,
        fault: &Fault,
        fillings: &[Filling],
    ) -> Result<(), AllocError> {
        for filling in fillings {
            match own_type(self.style, fault) {
                Some(name) => self.add(place, fault, *filling, name)?,
                None => {
                    for name in SOME_TYPES {
                        self.add(place, fault, *filling, name)?;
                    }
                }
            }
        }
        Ok(())
    }

    fn fill(&mut self, search: Search) -> Result<(), AllocError> {
        self.candidates = Vec::new(self.alloc);
        let fillings = fillings(self.alloc, self.style, search)?;
        let faults: &'a [Fault] = self.faults;
        for (place, fault) in faults.iter().enumerate() {
            if fault.step.is_of_entries && !self.is_found(place) {
                self.add_all(place, fault, fillings.as_slice())?;
            }
        }
        Ok(())
    }

    fn aux(&self, candidates: &[Candidate]) -> Result<Bytes, AllocError> {
        let mut aux = Bytes::new(self.alloc);
        for candidate in candidates {
            aux.append_all(&[b"\\citation{", candidate.key.as_slice(), b"}\n"])?;
        }
        aux.append(b"\\citation{parent}\n\\bibdata{x}\n\\bibstyle{s}\n")?;
        Ok(aux)
    }

    fn database(&self, candidates: &[Candidate]) -> Result<Bytes, AllocError> {
        let mut database = Bytes::new(self.alloc);
        for candidate in candidates {
            database.append_all(&[candidate.written.as_slice(), b"\n"])?;
        }
        database.append(PARENT)?;
        Ok(database)
    }

    fn file(&self, name: &[u8], text: &[u8]) -> Result<File, AllocError> {
        Ok(File {
            name: Shared::<Bytes>::copied(self.alloc, name)?,
            text: Shared::<Bytes>::copied(self.alloc, text)?,
        })
    }

    fn files(&self, candidates: &[Candidate]) -> Result<Vec<File>, AllocError> {
        let mut files = Vec::new(self.alloc);
        files.push(self.file(b"j.aux", self.aux(candidates)?.as_slice())?)?;
        files.push(self.file(b"x.bib", self.database(candidates)?.as_slice())?)?;
        files.push(self.file(b"s.bst", self.text)?)?;
        Ok(files)
    }

    fn run(&self, candidates: &[Candidate]) -> Result<Answers, AllocError> {
        let files = self.files(candidates)?;
        run(self.alloc, files.as_slice(), b"j", 2)
    }

    fn is_said(&self, place: usize, message: &Message) -> bool {
        match self.faults.get(place) {
            Some(fault) => says(message, fault),
            None => false,
        }
    }

    fn keep(&mut self, place: usize, shown: Bytes) {
        if let Some(found) = self.found.get_mut(place) {
            *found = Some(shown);
        }
    }

    /// Takes a message of the run: if it is that of the fault that its entry was made for, the entry is found.
    fn note(&mut self, message: &Message) -> Result<(), AllocError> {
        let Some(number) = candidate_of(message) else {
            return Ok(());
        };
        let Some(candidate) = self.candidates.get(number) else {
            return Ok(());
        };
        let place = candidate.fault;
        if !self.is_found(place) && self.is_said(place, message) {
            let shown = Bytes::copied(self.alloc, candidate.shown.as_slice())?;
            self.keep(place, shown);
        }
        Ok(())
    }

    fn note_all(&mut self, messages: &[Message]) -> Result<(), AllocError> {
        for message in messages {
            self.note(message)?;
        }
        Ok(())
    }

    /// Runs the first candidates, and notes what they trigger if they cost too much for a run of all.
    fn is_costly(&mut self, count: usize) -> Result<bool, AllocError> {
        let Some(first) = self.candidates.get(..count) else {
            return Ok(false);
        };
        let run = self.run(first)?;
        if cost(&run) <= MOST_COST.saturating_mul(count) {
            return Ok(false);
        }
        self.note_all(run.messages.as_slice())?;
        Ok(true)
    }

    /// Runs the candidates of a search, and says whether that was cheap enough for another search.
    fn search(&mut self, search: Search) -> Result<bool, AllocError> {
        self.fill(search)?;
        if self.candidates.is_empty() {
            return Ok(true);
        }
        for count in PROBES {
            if self.is_costly(count)? {
                return Ok(false);
            }
        }
        let run = self.run(self.candidates.as_slice())?;
        self.note_all(run.messages.as_slice())?;
        Ok(true)
    }
}

/// For each fault an entry that triggers it: the run of the style on that entry reports the fault. None if the search
/// found none.
pub fn witnesses(
    alloc: Global,
    style: &Style,
    text: &[u8],
    faults: &[Fault],
    effort: Effort,
) -> Result<Vec<Option<Bytes>>, AllocError> {
    let mut found = Vec::new(alloc);
    for _ in 0..faults.len() {
        found.push(None)?;
    }
    let mut hunt = Hunt {
        alloc,
        style,
        text,
        faults,
        most_candidates: effort.most_candidates(),
        candidates: Vec::new(alloc),
        found,
    };
    let is_cheap = hunt.search(Search::Short)?;
    if is_cheap && effort == Effort::Thorough {
        let _ = hunt.search(Search::Long)?;
    }
    Ok(hunt.found)
}
