//! A message in its parts.

ghost use Rattle.std.specs.Prelude.{◌≡◌, map, IfOk};
ghost use Rattle.bt_text.specs.Joined.{joined};
ghost use Rattle.bt_log.specs.Message.{plain, of_file, skipping, at};

use bt_text::{Bytes, Shared};
use std::alloc::{AllocError, Global};

/// What a message counts as.
#[derive(Clone, Copy, Debug, PartialEq, Eq)]
pub enum Rank {
    /// The line that names a file that is read. It doesn't affect the status.
    FileLine,
    /// A value that the style logs. It doesn't affect the status.
    Note,
    /// How often a built-in function was called. It doesn't affect the status.
    CallCount,
    Warning,
    Error,
    /// An error that ends the run.
    Fatal,
}

/// A kind of file that a job reads.
#[derive(Clone, Copy, Debug, PartialEq, Eq)]
pub enum FileKind {
    Aux,
    Bib,
    Bst,
}

/// What a message says about a file.
#[derive(Clone, Copy, Debug, PartialEq, Eq)]
pub enum FileNote {
    /// The job begins with this `.aux` file.
    RootAux,
    /// This `.aux` file is read, this many levels below the first.
    NestedAux(usize),
    /// This is the style.
    StyleFile,
    /// This is the database of this number, counted from 1.
    DatabaseFile(usize),
    /// No file of this kind has the name.
    NotOpened(FileKind),
    /// `\bibdata` names this database a second time.
    DatabaseTwice,
    /// This `.aux` file was read before.
    AuxTwice,
    /// The name doesn't end in `.aux`.
    WrongExtension,
    /// No file may have this name.
    BadFileName,
}

/// What a message says, without its place. A file's name is kept apart from the words, so that a caller who knows the
/// file by another name can replace it.
#[derive(Debug, Drop)]
pub enum Said {
    Words(Shared<Bytes>),
    OfFile { note: FileNote, file: Shared<Bytes> },
}

impl Said {
    /// The same, with shared text.
    pub fn share(&self) -> Result<Said, AllocError>
        ensures { IfOk result (λ said. said ≡ self.now) }
    {
        match self {
            Said::Words(words) => Ok(Said::Words(words.share()?)),
            Said::OfFile { note, file } => Ok(Said::OfFile {
                note: *note,
                file: file.share()?,
            }),
        }
    }
}

/// Where a message belongs. Lines and databases are numbered from 1. A byte is given, if the reader knows it, by the
/// number of bytes before it in its file.
#[derive(Debug, Drop)]
pub enum Place {
    /// A line of a file.
    Line {
        file: Shared<Bytes>,
        line: u128,
        byte: Option<usize>,
    },
    /// A line of a database, by the number of the database, until the name of its file is known.
    DatabaseLine {
        database: usize,
        line: u128,
        byte: Option<usize>,
    },
    /// A file as a whole.
    WholeFile {
        file: Shared<Bytes>,
    },
    /// A step of the style: the line of the command's word in the style's file.
    Step {
        style: Shared<Bytes>,
        line: usize,
    },
}

impl Place {
    fn share(&self) -> Result<Place, AllocError>
        ensures { IfOk result (λ place. place ≡ self.now) }
    {
        match self {
            Place::Line { file, line, byte } => Ok(Place::Line {
                file: file.share()?,
                line: *line,
                byte: *byte,
            }),
            Place::DatabaseLine {
                database,
                line,
                byte,
            } => Ok(Place::DatabaseLine {
                database: *database,
                line: *line,
                byte: *byte,
            }),
            Place::WholeFile { file } => Ok(Place::WholeFile {
                file: file.share()?,
            }),
            Place::Step { style, line } => Ok(Place::Step {
                style: style.share()?,
                line: *line,
            }),
        }
    }
}

/// A message in its parts. The log puts them into words.
#[derive(Debug, Drop)]
pub struct Message {
    pub rank: Rank,
    /// What it says, without its place.
    pub said: Said,
    /// The key of the entry that it is about, if any.
    pub entry: Option<Shared<Bytes>>,
    /// Where it belongs; none if it belongs to the whole run, or until the place is known.
    pub place: Option<Place>,
    /// What it says on a second line, after its place.
    pub second: Option<Shared<Bytes>>,
}

impl Message {
    /// A message with these pieces as its words, about no entry and without a place.
    pub fn of(alloc: Global, rank: Rank, pieces: &[&[u8]]) -> Result<Message, AllocError>
        ensures { IfOk result (λ message. message ≡ plain rank (joined (map (λ piece. piece.now) pieces.now))) }
    {
        Ok(Message {
            rank,
            said: Said::Words(Shared::<Bytes>::of(alloc, pieces)?),
            entry: None,
            place: None,
            second: None,
        })
    }

    /// A message that says this about a file. It is about no entry and has no place.
    pub fn of_file(rank: Rank, note: FileNote, file: Shared<Bytes>) -> Message
        ensures { result ≡ of_file rank note file }
    {
        Message {
            rank,
            said: Said::OfFile { note, file },
            entry: None,
            place: None,
            second: None,
        }
    }

    /// An error at a place, about no entry. Its second line says that the rest of `what` is skipped, such as `command`
    /// or `entry`.
    pub fn skipping(
        alloc: Global,
        said: Said,
        place: Place,
        what: &[u8],
    ) -> Result<Message, AllocError>
        ensures { IfOk result (λ message. message ≡ skipping said place what.now) }
    {
        let second = Shared::<Bytes>::of(
            alloc,
            &[b"I'm skipping whatever remains of this ", what],
        )?;
        Ok(Message {
            rank: Rank::Error,
            said,
            entry: None,
            place: Some(place),
            second: Some(second),
        })
    }

    /// The same message, with shared texts.
    pub fn share(&self) -> Result<Message, AllocError>
        ensures { IfOk result (λ message. message ≡ self.now) }
    {
        let place = match &self.place {
            None => None,
            Some(place) => Some(place.share()?),
        };
        Ok(Message {
            rank: self.rank,
            said: self.said.share()?,
            entry: shared(&self.entry)?,
            place,
            second: shared(&self.second)?,
        })
    }

    /// The same message at a place. Its texts are shared.
    pub fn at(&self, place: Place) -> Result<Message, AllocError>
        ensures { IfOk result (λ message. message ≡ at place self.now) }
    {
        let mut message = self.share()?;
        message.place = Some(place);
        Ok(message)
    }
}

fn shared(text: &Option<Shared<Bytes>>) -> Result<Option<Shared<Bytes>>, AllocError>
    ensures { IfOk result (λ same. same ≡ text.now) }
{
    match text {
        None => Ok(None),
        Some(text) => Ok(Some(text.share()?)),
    }
}
