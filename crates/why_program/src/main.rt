//! The program `bibtex-why`, which says where the lines of a bibliography come from.
#![tactic(auto)]

mod fates;
mod json;
mod options;
mod report;

use crate::options::{Options, Question, Request, parse};
use crate::report::Report;
use bt_front::JobRun;
use bt_job::File;
use bt_origins::{
    Difference, Explained, NamedText, Places, Sources, explain, places_of, style_named, text_named,
};
use bt_programs::{VERSION, words};
use bt_run::Run;
use bt_search::{FILES_WANTED, Script, Search};
use bt_style::{Style, StyleRefusal, read_style};
use bt_text::Bytes;
use bt_why::Line;
use bt_words::Program;
use std::alloc::{AllocError, Global};
use std::io::Write;
use std::mem::forget;
use std::process::ExitCode;

/// The exit status if the place isn't there.
const NO_PLACE: u8 = 1;
/// The exit status if the job can't be run, or if it can't be explained.
const NOT_RUN: u8 = 2;

const HELP: &str = "\
usage: bibtex-why [--exact] [--format=text|json] [--min-crossrefs=N] JOB [LINE[:COLUMN] | KEY]
       bibtex-why --messages JOB

Says where a line of JOB.bbl comes from: for each piece of it the field or the text of the style,
and the functions of the style that pushed it, with their lines. It reads JOB.aux, the databases
and the style, and writes no file. For a KEY it shows all lines of the entry, its messages, and
which fields aren't in the bibliography. Without LINE or KEY it shows all lines.

  --exact             cut pieces also where a built-in function changed or added letters
  --messages          show where the style's messages come from
  --format=json       print a JSON object a line
  --min-crossrefs=N   as for bibtex
  --version           print the version
  --help              print this

Exit status: 0 if the place was explained, 1 if there is no such line or entry, 2 if the job can't
be run or explained, or if the command line is wrong.";

fn named<'a>(alloc: Global, files: &'a [File]) -> Result<Vec<NamedText<'a>>, AllocError> {
    let mut all = Vec::new(alloc);
    for file in files {
        all.push(NamedText {
            name: file.name.as_slice(),
            text: file.text.as_slice(),
        })?;
    }
    Ok(all)
}

/// A run, and its style with the name of its file.
#[derive(Clone, Copy)]
struct Styled<'a> {
    run: &'a Run,
    style: &'a Style,
    name: &'a [u8],
}

/// What is printed, and the exit status.
type Printed = (Bytes, u8);

fn add_lines(report: &mut Report<'_>, lines: &[&Line]) -> Result<bool, AllocError> {
    for (place, line) in lines.iter().enumerate() {
        report.add_line(place.saturating_add(1), line, None)?;
    }
    Ok(true)
}

fn line_at<'a>(lines: &[&'a Line], number: usize) -> Option<&'a Line> {
    lines.get(number.checked_sub(1)?).copied()
}

fn add_line(
    report: &mut Report<'_>,
    lines: &[&Line],
    number: usize,
    column: Option<usize>,
) -> Result<bool, AllocError> {
    match line_at(lines, number) {
        Some(line) => report.add_line(number, line, column),
        None => Ok(false),
    }
}

fn add_key(
    report: &mut Report<'_>,
    sources: Sources<'_>,
    lines: &[&Line],
    key: &[u8],
) -> Result<bool, AllocError> {
    for (place, line) in lines.iter().enumerate() {
        if line.iter().any(|written| sources.is_of(written.step, key)) {
            report.add_line(place.saturating_add(1), line, None)?;
        }
    }
    report.add_messages(Some(key))?;
    report.add_fields(key)?;
    Ok(sources.has_key(key))
}

/// Answers the question. It says whether the place is there.
fn add_answer(
    report: &mut Report<'_>,
    sources: Sources<'_>,
    question: Question<'_>,
) -> Result<bool, AllocError> {
    let lines = sources.explained.lines()?;
    let lines = lines.as_slice();
    match question {
        Question::All => add_lines(report, lines),
        Question::Line(number, column) => add_line(report, lines, number, column),
        Question::Key(key) => add_key(report, sources, lines, key.as_bytes()),
        Question::Messages => {
            report.add_messages(None)?;
            Ok(true)
        }
    }
}

fn answered(sources: Sources<'_>, options: Options<'_>) -> Result<Printed, AllocError> {
    let (alloc, job) = (sources.alloc, options.job);
    let file = format!(in alloc; "{job}.bbl")?;
    let mut report = Report::new(sources, file.as_bytes(), options.is_exact, options.format);
    let is_there = add_answer(&mut report, sources, options.question)?;
    if !is_there {
        report.text = Bytes::new(alloc);
    }
    Ok((report.text, if is_there { 0 } else { NO_PLACE }))
}

/// What is printed if the marked run isn't the run.
fn differs(alloc: Global, difference: Difference) -> Result<Printed, AllocError> {
    let words = match difference {
        Difference::TooMuch => {
            format!(in alloc; "bibtex-why: gave up: this style pushes too many texts\n")?
        }
        Difference::Step(step) => format!(in alloc;
            "bibtex-why: step {step} gives something else when it is run with marks; please report this\n"
        )?,
        Difference::Mark => format!(in alloc;
            "bibtex-why: a mark names something else; please report this\n"
        )?,
        Difference::Bibliography => format!(in alloc;
            "bibtex-why: the marked lines aren't the bibliography; please report this\n"
        )?,
    };
    Ok((Bytes::copied(alloc, words.as_bytes())?, NOT_RUN))
}

fn answer_with(
    alloc: Global,
    styled: Styled<'_>,
    explained: &Explained<'_>,
    places: &Places<'_>,
    options: Options<'_>,
) -> Result<Printed, AllocError> {
    let sources = Sources {
        alloc,
        kept: &styled.run.kept,
        style: styled.style,
        style_name: styled.name,
        explained,
        places,
    };
    answered(sources, options)
}

fn explain_with(
    alloc: Global,
    styled: Styled<'_>,
    program: &Program,
    places: &Places<'_>,
    options: Options<'_>,
) -> Result<Printed, AllocError> {
    let run = styled.run;
    match explain(
        alloc,
        styled.style,
        program,
        &run.kept,
        run.answers.bbl.as_slice(),
    )? {
        Ok(explained) => answer_with(alloc, styled, &explained, places, options),
        Err(difference) => differs(alloc, difference),
    }
}

fn explain_run(
    alloc: Global,
    files: &[NamedText<'_>],
    styled: Styled<'_>,
    text: &[u8],
    options: Options<'_>,
) -> Result<Printed, AllocError> {
    let program = Program::of(alloc, styled.style, text)?;
    let run = styled.run;
    let messages = run.answers.messages.as_slice();
    let places = places_of(alloc, files, messages, &run.kept)?;
    explain_with(alloc, styled, &program, &places, options)
}

fn explain_job(
    alloc: Global,
    files: &[File],
    run: &Run,
    options: Options<'_>,
) -> Result<Option<Printed>, AllocError> {
    let files = named(alloc, files)?;
    let files = files.as_slice();
    let Some(name) = style_named(run.answers.messages.as_slice()) else {
        return Ok(None);
    };
    let Some(text) = text_named(files, name) else {
        return Ok(None);
    };
    match read_style(alloc, text) {
        Ok(style) => {
            let styled = Styled {
                run,
                style: &style,
                name,
            };
            Ok(Some(explain_run(alloc, files, styled, text, options)?))
        }
        Err(StyleRefusal::Fault { .. }) => Ok(None),
        Err(StyleRefusal::OutOfMemory) => Err(AllocError),
    }
}

fn print(rt: &HostRuntime, printed: &Printed) -> u8 {
    let (text, status) = printed;
    if *status == NOT_RUN {
        let mut err = rt.stderr();
        let _ = err.write_all(text.as_slice());
    } else {
        let mut out = rt.stdout();
        let _ = out.write_all(text.as_slice());
    }
    *status
}

fn miss(rt: &HostRuntime, options: Options<'_>) {
    let job = options.job;
    let _ = match options.question {
        Question::Line(number, None) => {
            eprintln!(rt; "bibtex-why: {job}.bbl has no line {number}")
        }
        Question::Line(number, Some(column)) => {
            eprintln!(rt; "bibtex-why: {job}.bbl has no column {column} in a line {number}")
        }
        Question::Key(key) => eprintln!(rt; "bibtex-why: {job}.bbl has no entry {key}"),
        _ => Ok(()),
    };
}

fn tell_run(
    rt: &HostRuntime,
    files: &[File],
    run: &Run,
    options: Options<'_>,
) -> Result<u8, AllocError> {
    if let Some(printed) = explain_job(rt.alloc(), files, run, options)? {
        let status = print(rt, &printed);
        if status == NO_PLACE {
            miss(rt, options);
        }
        return Ok(status);
    }
    let job = options.job;
    let _ = eprintln!(rt; "bibtex-why: {job} has no style that can be read; run bibtex {job}");
    Ok(NOT_RUN)
}

fn explain_files(rt: &HostRuntime, files: &[File], options: Options<'_>) -> Result<u8, AllocError> {
    let job = JobRun::of(rt.alloc(), files, options.job.as_bytes(), options.min)?;
    let status = tell_run(rt, files, &job.run, options);
    // The program ends here: what the run kept goes with it, at once.
    forget(job);
    status
}

/// Looks up the job's files and explains it, or asks the script to find files.
fn explain_named(rt: &HostRuntime, options: Options<'_>) -> Result<u8, AllocError> {
    let script = Script::of(rt)?;
    let mut search = Search::new(rt.alloc(), rt, &script, options.job);
    search.run(options.job)?;
    if search.files().is_empty() {
        let job = options.job;
        let _ = eprintln!(rt; "bibtex-why: can't read {job}.aux");
        return Ok(NOT_RUN);
    }
    match script.ask_for_files(rt, search.missing())? {
        Some(true) => Ok(FILES_WANTED),
        _ => explain_files(rt, search.files(), options),
    }
}

fn refuse(rt: &HostRuntime, request: Request<'_>) -> u8 {
    let _ = match request {
        Request::UnknownOption(word) => eprintln!(rt;
            "bibtex-why: there is no option {word}; bibtex-why --help shows all"
        ),
        Request::TooMany(word) => eprintln!(rt;
            "bibtex-why: {word} is too much; name a job, and a line or a key"
        ),
        _ => eprintln!(rt;
            "bibtex-why: name a job, as in bibtex-why paper 12; bibtex-why --help shows more"
        ),
    };
    NOT_RUN
}

fn answer(rt: &HostRuntime) -> Result<u8, AllocError> {
    let Some(words) = words(rt)? else {
        let _ = eprintln!(rt; "bibtex-why: the command line isn't UTF-8");
        return Ok(NOT_RUN);
    };
    match parse(words.as_slice()) {
        Request::Explain(options) => explain_named(rt, options),
        Request::Help => {
            let _ = println!(rt; "{HELP}");
            Ok(0)
        }
        Request::Version => {
            let _ = println!(rt; "dulshenko {VERSION}");
            Ok(0)
        }
        request => Ok(refuse(rt, request)),
    }
}

fn main(rt: HostRuntime) -> ExitCode {
    match answer(&rt) {
        Ok(status) => ExitCode::from(status),
        Err(_) => {
            let _ = eprintln!(rt; "bibtex-why: out of memory");
            ExitCode::from(NOT_RUN)
        }
    }
}
