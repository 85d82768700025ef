//! What a job's files mean.
//!
//! Three steps: collect all names that the files have or give, run the same job under names that a session admits, and put
//! the author's names back into what it shows. All names are collected first, since a name's number depends on those before.

ghost use Rattle.std.specs.Prelude.{◌≡◌, ℕ, ◌++◌, map, IfOk, OnOk};
ghost use Rattle.bt_bib.specs.AuxLine.{aux_lines};
ghost use Rattle.bt_run.specs.Shown.{meaning_of};
ghost use Rattle.bt_files.specs.AuxText.{names_by, part_with, item_with};
ghost use Rattle.bt_files.specs.Messages.{name_back};
ghost use Rattle.bt_front.specs.Job.{is_aux, names_given, names_with, names_of, table_of, renamed, text_under, file_under, root_under, told_under, job_meaning};
ghost use Rattle.bt_front.specs.JobRun.{IsLogged};

use bt_bib::{AuxItem, Command, read_aux};
use bt_files::{Names, all_put_back, is_own_name, written};
use bt_job::{AuxTexts, File, file_name_of, read_citations};
use bt_log::{log_bytes, terse_bytes};
use bt_run::{Answers, run_once};
use bt_text::{Bytes, Sequence, Shared};
use std::alloc::{AllocError, Global};

fn is_aux(file: &File) -> bool
    ensures { result ≡ is_aux file.now }
{
    file.name.as_slice().ends_with(b".aux")
}

fn add_parts(
    alloc: Global,
    names: &mut Sequence<Bytes>,
    command: Command,
    parts: &[Bytes],
) -> Result<(), AllocError>
    ensures { OnOk result (names.new ≡ names.old ++ names_by command parts.now) }
{
    if command == Command::Citation {
        return Ok(());
    }
    'parts: for part in parts {
        names.push(file_name_of(alloc, command, part.as_slice())?)?;
    }
    Ok(())
}

fn add_text(alloc: Global, names: &mut Sequence<Bytes>, text: &[u8]) -> Result<(), AllocError>
    ensures { OnOk result (names.new ≡ names.old ++ names_given text.now) }
{
    let items = read_aux(alloc, text)?;
    'items: for item in items.as_slice() {
        add_parts(alloc, names, item.command, item.parts.as_slice())?;
    }
    Ok(())
}

fn add_file(alloc: Global, names: &mut Sequence<Bytes>, file: &File) -> Result<(), AllocError>
    ensures { OnOk result (names.new ≡ names.old ++ names_with file.now) }
{
    names.push(Bytes::copied(alloc, file.name.as_slice())?)?;
    if is_aux(file) {
        add_text(alloc, names, file.text.as_slice())?;
    }
    Ok(())
}

/// The names of a job's files and those that they give, its root's first, in the order of the files and of their lines.
/// `root` is the name of the job's first `.aux` file without its ending. The only error is out of memory.
pub fn names_of(alloc: Global, files: &[File], root: &[u8]) -> Result<Sequence<Bytes>, AllocError>
    ensures { IfOk result (λ names. names ≡ names_of files.now root.now) }
{
    let mut names = Sequence::new(alloc);
    names.push(Bytes::of(alloc, &[root, b".aux"])?)?;
    'files: for file in files {
        add_file(alloc, &mut names, file)?;
    }
    Ok(names)
}

/// The names of a job that need another name in a session.
#[tactic(auto, unfolding(crate::specs::Job::table_of))]
fn table_of(alloc: Global, files: &[File], root: &[u8]) -> Result<Names, AllocError>
    ensures { IfOk result (λ table. table ≡ table_of files.now root.now) }
{
    let names = names_of(alloc, files, root)?;
    let mut table = Names::new(alloc);
    'names: for name in names.as_slice() {
        table.note(alloc, name.as_slice())?;
    }
    Ok(table)
}

/// The session's name of an author's file.
fn renamed(alloc: Global, names: &Names, author: &[u8]) -> Result<Bytes, AllocError>
    ensures { IfOk result (λ name. name ≡ renamed names.now author.now) }
{
    match names.session_name(alloc, author)? {
        Some(name) => Ok(name),
        None => Bytes::copied(alloc, author),
    }
}

fn part_under(
    alloc: Global,
    names: &Names,
    command: Command,
    part: &[u8],
) -> Result<Bytes, AllocError>
    ensures { IfOk result (λ under. under ≡ part_with (renamed names.now) command part.now) }
{
    match command {
        Command::Citation => Bytes::copied(alloc, part),
        Command::Database | Command::Style | Command::Nested => {
            renamed(alloc, names, file_name_of(alloc, command, part)?.as_slice())
        }
    }
}

fn item_under(alloc: Global, names: &Names, item: &AuxItem) -> Result<AuxItem, AllocError>
    ensures { IfOk result (λ under. under ≡ item_with (renamed names.now) item.now) }
{
    let mut parts = Sequence::new(alloc);
    'parts: for part in item.parts.as_slice() {
        parts.push(part_under(alloc, names, item.command, part.as_slice())?)?;
    }
    Ok(AuxItem {
        line: item.line,
        command: item.command,
        parts,
        fault: item.fault,
    })
}

fn items_under(alloc: Global, names: &Names, text: &[u8]) -> Result<Sequence<AuxItem>, AllocError>
    ensures { IfOk result (λ items. items ≡ map (item_with (renamed names.now)) (aux_lines text.now)) }
{
    let items = read_aux(alloc, text)?;
    let mut under = Sequence::new(alloc);
    'items: for item in items.as_slice() {
        under.push(item_under(alloc, names, item)?)?;
    }
    Ok(under)
}

/// A job that needs no other names runs on its own texts, which stay unread here.
fn text_under(
    alloc: Global,
    names: &Names,
    text: &Shared<Bytes>,
) -> Result<Shared<Bytes>, AllocError>
    ensures { IfOk result (λ under. under ≡ text_under names.now text.now) }
{
    if names.is_empty() {
        return text.share();
    }
    let items = items_under(alloc, names, text.as_slice())?;
    Shared::new(alloc, written(alloc, items.as_slice())?)
}

fn file_under(alloc: Global, names: &Names, file: &File) -> Result<File, AllocError>
    ensures { IfOk result (λ under. under ≡ file_under names.now file.now) }
{
    let text = if is_aux(file) {
        text_under(alloc, names, &file.text)?
    } else {
        file.text.share()?
    };
    let name = renamed(alloc, names, file.name.as_slice())?;
    Ok(File {
        name: Shared::new(alloc, name)?,
        text,
    })
}

fn files_under(alloc: Global, names: &Names, files: &[File]) -> Result<Sequence<File>, AllocError>
    ensures { IfOk result (λ under. under ≡ map (file_under names.now) files.now) }
{
    let mut under = Sequence::new(alloc);
    'files: for file in files {
        under.push(file_under(alloc, names, file)?)?;
    }
    Ok(under)
}

/// The root's name is the first of `names_of`, so the one that stands for it has the number 1.
fn root_under(alloc: Global, root: &[u8]) -> Result<Bytes, AllocError>
    ensures { IfOk result (λ under. under ≡ root_under root.now) }
{
    if is_own_name(Bytes::of(alloc, &[root, b".aux"])?.as_slice()) {
        Bytes::copied(alloc, root)
    } else {
        Bytes::copied(alloc, b"+/1")
    }
}

fn names_back(alloc: Global, names: &Names, files: &[Bytes]) -> Result<Sequence<Bytes>, AllocError>
    ensures { IfOk result (λ back. back ≡ map (name_back names.now) files.now) }
{
    let mut back = Sequence::new(alloc);
    'files: for file in files {
        let author = names
            .author_name(file.as_slice())
            .unwrap_or(file.as_slice());
        back.push(Bytes::copied(alloc, author)?)?;
    }
    Ok(back)
}

/// A job under the session's names.
#[derive(Drop)]
pub struct UnderNames {
    pub names: Names,
    pub files: Sequence<File>,
    pub root: Bytes,
}

impl UnderNames {
    pub fn of(alloc: Global, files: &[File], root: &[u8]) -> Result<UnderNames, AllocError>
        ensures names { IfOk result (λ under. under.names ≡ table_of files.now root.now) }
        ensures files { IfOk result (λ under. under.files ≡ map (file_under under.names) files.now) }
        ensures root { IfOk result (λ under. under.root ≡ root_under root.now) }
    {
        let names = table_of(alloc, files, root)?;
        let files = files_under(alloc, &names, files)?;
        let root = root_under(alloc, root)?;
        Ok(UnderNames { names, files, root })
    }
}

/// Puts the author's names back into the answers. If the job needed no other names, they are there already. The only error
/// is out of memory.
pub fn put_names_back(alloc: Global, names: &Names, answers: &mut Answers) -> Result<(), AllocError>
    requires { IsLogged (meaning_of answers.old) }
    ensures { OnOk result (meaning_of answers.new ≡ told_under names.now (meaning_of answers.old)) }
{
    if names.is_empty() {
        return Ok(());
    }
    let messages = all_put_back(alloc, names, answers.messages.as_slice())?;
    let blg = log_bytes(alloc, messages.as_slice())?;
    let terse = terse_bytes(alloc, messages.as_slice())?;
    let wanted = names_back(alloc, names, answers.wanted.as_slice())?;
    answers.blg = blg;
    answers.terse = terse;
    answers.messages = messages;
    answers.wanted = wanted;
    Ok(())
}

/// What a job's files mean, of any size and number and under any names. `root` is the name of the job's first `.aux` file
/// without its ending. The only error is out of memory.
#[tactic(auto, unfolding(crate::specs::Job::job_meaning))]
pub fn run(alloc: Global, files: &[File], root: &[u8], min: u32) -> Result<Answers, AllocError>
    ensures { IfOk result (λ answers. meaning_of answers ≡ job_meaning files.now root.now min) }
{
    let under = UnderNames::of(alloc, files, root)?;
    let mut answers = run_once(alloc, under.files.as_slice(), under.root.as_slice(), min)?;
    put_names_back(alloc, &under.names, &mut answers)?;
    Ok(answers)
}

/// The names of the files that a run of the job looks for and doesn't find, in order, each once. Nothing is run. The only
/// error is out of memory.
pub fn wanted(alloc: Global, files: &[File], root: &[u8]) -> Result<Sequence<Bytes>, AllocError>
    ensures { IfOk result (λ names. (min : ℕ) → names ≡ (job_meaning files.now root.now min).wanted) }
{
    let under = UnderNames::of(alloc, files, root)?;
    let mut known = AuxTexts::new(alloc);
    let citations = read_citations(
        alloc,
        under.files.as_slice(),
        under.root.as_slice(),
        &mut known,
    )?;
    let wanted = names_back(alloc, &under.names, citations.wanted.as_slice())?;
    Ok(wanted)
}
