//! Where keys are cited: in an argument of a command whose name has `cite` in it, or begins like `citation`.
//!
//! A name such as `\explicit` or `\opacity` isn't one: a rename would change what has nothing to do with keys.

ghost use Rattle.std.specs.Prelude.{◌≡◌};
ghost use Rattle.bt_mentions.specs.Citing.{letters_from, letters_after, arguments_of, before_after, after_name, name_after, after_keys, citing_after, are_keys, is_citing};

use bt_text::is_white;

/// What the letters of a command's name end with, or that they have `cite` or `citat` before that.
#[derive(Clone, Copy, PartialEq, Eq)]
pub enum Letters {
    Nothing,
    C,
    Ci,
    Cit,
    Cita,
    Cite,
    Cites,
    Found,
}

/// How many arguments of a command have keys.
#[derive(Clone, Copy, PartialEq, Eq)]
pub enum Arguments {
    /// The first one, as in `\bibcite{knuth}{1}`.
    First,
    /// All of them, as in `\cites{knuth}{lamport}`.
    All,
}

/// Where a place is, by the bytes before it.
#[derive(Clone, Copy, PartialEq, Eq)]
pub enum Citing {
    /// In no command.
    Outside,
    /// In a command's name.
    Name(Letters),
    /// Before an option or an argument of a command that cites.
    Before(Arguments),
    /// In an option of one.
    Option(Arguments),
    /// In an argument of one.
    Keys(Arguments),
}

fn letters_from(letter: u8) -> Letters
    ensures { result ≡ letters_from letter }
{
    if letter == b'c' {
        Letters::C
    } else {
        Letters::Nothing
    }
}

/// The letters with one more, in lower case.
fn letters_after(before: Letters, letter: u8) -> Letters
    ensures { result ≡ letters_after before letter }
{
    match before {
        Letters::Nothing => letters_from(letter),
        Letters::C => if letter == b'i' {
            Letters::Ci
        } else {
            letters_from(letter)
        },
        Letters::Ci => if letter == b't' {
            Letters::Cit
        } else {
            letters_from(letter)
        },
        Letters::Cit => if letter == b'e' {
            Letters::Cite
        } else if letter == b'a' {
            Letters::Cita
        } else {
            letters_from(letter)
        },
        Letters::Cita => if letter == b't' {
            Letters::Found
        } else {
            letters_from(letter)
        },
        Letters::Cite => if letter == b's' {
            Letters::Cites
        } else {
            Letters::Found
        },
        Letters::Cites | Letters::Found => Letters::Found,
    }
}

/// Which arguments of a command with such a name have keys; none if it doesn't cite.
fn arguments_of(letters: Letters) -> Option<Arguments>
    ensures { result ≡ arguments_of letters }
{
    match letters {
        Letters::Cite | Letters::Found => Some(Arguments::First),
        Letters::Cites => Some(Arguments::All),
        Letters::Nothing | Letters::C | Letters::Ci | Letters::Cit | Letters::Cita => None,
    }
}

/// Where a place is after a byte that follows the name, an option or an argument of a command that cites.
fn before_after(arguments: Arguments, byte: u8) -> Citing
    ensures { result ≡ before_after arguments byte }
{
    if byte == b'[' {
        Citing::Option(arguments)
    } else if byte == b'{' {
        Citing::Keys(arguments)
    } else if byte == b'\\' {
        Citing::Name(Letters::Nothing)
    } else if is_white(byte) || byte == b'*' {
        Citing::Before(arguments)
    } else {
        Citing::Outside
    }
}

/// The same after the name of any command.
fn after_name(arguments: Option<Arguments>, byte: u8) -> Citing
    ensures { result ≡ after_name arguments byte }
{
    match arguments {
        Some(arguments) => before_after(arguments, byte),
        None => if byte == b'\\' {
            Citing::Name(Letters::Nothing)
        } else {
            Citing::Outside
        },
    }
}

fn name_after(letters: Letters, byte: u8) -> Citing
    ensures { result ≡ name_after letters byte }
{
    let letter = byte.to_ascii_lowercase();
    if b'a' <= letter && letter <= b'z' {
        Citing::Name(letters_after(letters, letter))
    } else {
        after_name(arguments_of(letters), byte)
    }
}

/// Where a place is after an argument.
fn after_keys(arguments: Arguments) -> Citing
    ensures { result ≡ after_keys arguments }
{
    match arguments {
        Arguments::First => Citing::Outside,
        Arguments::All => Citing::Before(Arguments::All),
    }
}

/// Where the next place is.
pub fn citing_after(before: Citing, byte: u8) -> Citing
    ensures { result ≡ citing_after before byte }
{
    match before {
        Citing::Outside => if byte == b'\\' {
            Citing::Name(Letters::Nothing)
        } else {
            Citing::Outside
        },
        Citing::Name(letters) => name_after(letters, byte),
        Citing::Before(arguments) => before_after(arguments, byte),
        Citing::Option(arguments) => if byte == b']' {
            Citing::Before(arguments)
        } else {
            Citing::Option(arguments)
        },
        Citing::Keys(arguments) => if byte == b'}' {
            after_keys(arguments)
        } else {
            Citing::Keys(arguments)
        },
    }
}

/// Whether keys are cited at such a place.
pub fn are_keys(citing: Citing) -> bool
    ensures { result ≡ are_keys citing }
{
    match citing {
        Citing::Keys(_) => true,
        Citing::Outside | Citing::Name(_) | Citing::Before(_) | Citing::Option(_) => false,
    }
}

/// Whether keys are cited after these bytes.
pub fn is_citing(text: &[u8]) -> bool
    ensures { result ≡ is_citing text.now }
{
    let mut state = Citing::Outside;
    'bytes: for byte in text {
        state = citing_after(state, *byte);
    }
    are_keys(state)
}
