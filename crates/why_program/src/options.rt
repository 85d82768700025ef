//! The command line: options with one dash or two, a job, and what is asked for.

/// How a report is printed.
#[derive(Clone, Copy, PartialEq, Eq)]
pub enum Format {
    Text,
    /// One JSON object a line.
    Json,
}

/// What is to be explained.
#[derive(Clone, Copy)]
pub enum Question<'a> {
    /// All lines.
    All,
    /// A line of the bibliography, or its piece at a column, both from 1.
    Line(usize, Option<usize>),
    /// The lines, messages and fields of the entry with this key.
    Key(&'a str),
    /// The messages of the style.
    Messages,
}

#[derive(Clone, Copy)]
pub struct Options<'a> {
    /// The job's name, without `.aux`.
    pub job: &'a str,
    pub question: Question<'a>,
    /// Whether pieces end wherever the mark changes.
    pub is_exact: bool,
    pub format: Format,
    /// How many entries must refer to an uncited one to include it.
    pub min: u32,
}

/// What the words of a command line come to.
#[derive(Clone, Copy)]
pub enum Request<'a> {
    Explain(Options<'a>),
    Help,
    Version,
    NoJob,
    UnknownOption(&'a str),
    TooMany(&'a str),
}

/// The words that were met so far.
#[derive(Clone, Copy)]
struct Words<'a> {
    job: Option<&'a str>,
    place: Option<&'a str>,
    options: Options<'a>,
}

/// An option without its dashes; none if the word is no option.
fn option_of(word: &str) -> Option<&str> {
    word.strip_prefix("--").or(word.strip_prefix('-'))
}

fn number(text: &str) -> Option<usize> {
    text.parse::<usize>().ok()
}

fn line_of(place: &str) -> Option<Question<'_>> {
    match place.split_once(':') {
        None => Some(Question::Line(number(place)?, None)),
        Some((line, column)) => Some(Question::Line(number(line)?, Some(number(column)?))),
    }
}

impl<'a> Words<'a> {
    /// Takes an option, and says whether there is such a one.
    fn take(&mut self, option: &str) -> bool {
        let options = &mut self.options;
        match option {
            "exact" => options.is_exact = true,
            "messages" => options.question = Question::Messages,
            "format=text" => options.format = Format::Text,
            "format=json" => options.format = Format::Json,
            _ => {
                let Some(number) = option.strip_prefix("min-crossrefs=") else {
                    return false;
                };
                let Ok(min) = number.parse::<u16>() else {
                    return false;
                };
                options.min = u32::from(min);
            }
        }
        true
    }

    fn request(self) -> Request<'a> {
        let Some(job) = self.job else {
            return Request::NoJob;
        };
        let mut options = self.options;
        options.job = job.strip_suffix(".aux").unwrap_or(job);
        if let Some(place) = self.place {
            options.question = line_of(place).unwrap_or(Question::Key(place));
        }
        Request::Explain(options)
    }
}

/// What these words ask for, of which the first is the program's name.
pub fn parse<'a>(words: &'a [String]) -> Request<'a> {
    let mut met = Words {
        job: None,
        place: None,
        options: Options {
            job: "",
            question: Question::All,
            is_exact: false,
            format: Format::Text,
            min: 2,
        },
    };
    'words: for word in words.iter().skip(1) {
        let word = word.as_str();
        match option_of(word) {
            Some("help") => return Request::Help,
            Some("version") => return Request::Version,
            Some(option) => {
                if !met.take(option) {
                    return Request::UnknownOption(word);
                }
            }
            None if met.job.is_none() => met.job = Some(word),
            None if met.place.is_none() => met.place = Some(word),
            None => return Request::TooMany(word),
        }
    }
    met.request()
}
