//! The command line, in the forms that LaTeX's tools and scripts use: options with one dash or two, and a job with or
//! without its ending.

/// What a command line asks for.
#[derive(Clone, Copy)]
pub struct Options<'a> {
    /// The job's name, without `.aux`.
    pub job: &'a str,
    /// How many entries must refer to an uncited entry before it is listed.
    pub min: u16,
    /// Whether to leave out the names of the files.
    pub terse: bool,
    /// Whether to leave out the hints.
    pub quiet: bool,
    /// Whether another `bibtex` may do the job.
    pub may_hand_over: bool,
}

/// What is wrong with a command line.
#[derive(Clone, Copy)]
pub enum Wrong<'a> {
    NoJob,
    TwoJobs(&'a str, &'a str),
    UnknownOption(&'a str),
    /// The word where the number of `-min-crossrefs` must be, if there is one.
    NoNumber(Option<&'a str>),
}

/// What the words of a command line mean.
#[derive(Clone, Copy)]
pub enum Request<'a> {
    Run(Options<'a>),
    Help,
    Version,
    Wrong(Wrong<'a>),
}

enum Word<'a> {
    Job(&'a str),
    /// An option without its dashes, and what follows its `=`.
    Option(&'a str, Option<&'a str>),
    /// `--`, after which no word is an option.
    OptionsEnd,
}

impl<'a> Word<'a> {
    fn of(word: &'a str) -> Word<'a> {
        if word == "--" {
            return Word::OptionsEnd;
        }
        let Some(option) = word.strip_prefix("--").or(word.strip_prefix('-')) else {
            return Word::Job(word);
        };
        match option.split_once('=') {
            Some((name, value)) => Word::Option(name, Some(value)),
            None => Word::Option(option, None),
        }
    }
}

/// The options, without their dashes.
const NAMES: &[&str] = &[
    "terse",
    "quiet",
    "no-fallback",
    "min-crossrefs",
    "help",
    "version",
];

/// The option that begins like this, if there is exactly one; else the beginning itself.
fn full_name(start: &str) -> &str {
    let mut found = NAMES.iter().filter(|name| name.starts_with(start));
    match (found.next(), found.next()) {
        (Some(name), None) => name,
        _ => start,
    }
}

/// The name of a job without the ending of its `.aux` or `.tex` file.
fn without_ending(job: &str) -> &str {
    let short = job.strip_suffix(".aux").or(job.strip_suffix(".tex"));
    short.unwrap_or(job)
}

/// The command line as far as it was read.
#[derive(Drop)]
struct Reader<'a> {
    options: Options<'a>,
    job: Option<&'a str>,
    only_jobs: bool,
    /// Whether the next word is the number of `-min-crossrefs`.
    wants_number: bool,
}

impl<'a> Reader<'a> {
    /// Takes the job. An error says that it is the second.
    fn take_job(&mut self, job: &'a str) -> Result<(), Request<'a>> {
        if let Some(first) = self.job {
            return Err(Request::Wrong(Wrong::TwoJobs(first, job)));
        }
        self.job = Some(job);
        Ok(())
    }

    fn take_number(&mut self, number: &'a str) -> Result<(), Request<'a>> {
        self.wants_number = false;
        match number.parse::<u16>() {
            Ok(min) => {
                self.options.min = min;
                Ok(())
            }
            Err(_) => Err(Request::Wrong(Wrong::NoNumber(Some(number)))),
        }
    }

    fn take_option(
        &mut self,
        word: &'a str,
        name: &str,
        value: Option<&'a str>,
    ) -> Result<(), Request<'a>> {
        match (full_name(name), value) {
            ("terse", None) => self.options.terse = true,
            ("quiet", None) => self.options.quiet = true,
            ("no-fallback", None) => self.options.may_hand_over = false,
            ("min-crossrefs", Some(number)) => return self.take_number(number),
            ("min-crossrefs", None) => self.wants_number = true,
            ("help", None) => return Err(Request::Help),
            ("version", None) => return Err(Request::Version),
            _ => return Err(Request::Wrong(Wrong::UnknownOption(word))),
        }
        Ok(())
    }

    fn take(&mut self, word: &'a str) -> Result<(), Request<'a>> {
        if self.wants_number {
            return self.take_number(word);
        }
        if self.only_jobs {
            return self.take_job(word);
        }
        match Word::of(word) {
            Word::Job(job) => self.take_job(job),
            Word::Option(name, value) => self.take_option(word, name, value),
            Word::OptionsEnd => {
                self.only_jobs = true;
                Ok(())
            }
        }
    }

    fn end(self) -> Request<'a> {
        if self.wants_number {
            return Request::Wrong(Wrong::NoNumber(None));
        }
        match self.job {
            Some(job) => Request::Run(Options {
                job: without_ending(job),
                ..self.options
            }),
            None => Request::Wrong(Wrong::NoJob),
        }
    }
}

/// What these words ask for, the first of which is the program's name.
pub fn parse<'a>(words: &'a [String]) -> Request<'a> {
    let mut reader = Reader {
        options: Options {
            job: "",
            min: 2,
            terse: false,
            quiet: false,
            may_hand_over: true,
        },
        job: None,
        only_jobs: false,
        wants_number: false,
    };
    'words: for word in words.iter().skip(1) {
        if let Err(request) = reader.take(word.as_str()) {
            return request;
        }
    }
    reader.end()
}
