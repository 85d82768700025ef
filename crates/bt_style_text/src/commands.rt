//! The words of commands.

ghost use Rattle.std.specs.Prelude.{◌≡◌};
ghost use Rattle.std.specs.List.{find};
ghost use Rattle.std.specs.Prelude.{bytes_eq, is_some};
ghost use Rattle.bt_text.specs.CaseFolding.{is_same_folded};
ghost use Rattle.bt_style_text.specs.Commands.{word_of, command_named, is_command_word, all_commands};

use bt_text::eq_ignore_ascii_case;

/// A command of a style.
#[derive(Clone, Copy)]
pub enum Command {
    Entry,
    Execute,
    Function,
    Integers,
    Iterate,
    Macro,
    Read,
    Reverse,
    Sort,
    Strings,
}

static COMMANDS: [Command; 10] = [
    Command::Entry,
    Command::Execute,
    Command::Function,
    Command::Integers,
    Command::Iterate,
    Command::Macro,
    Command::Read,
    Command::Reverse,
    Command::Sort,
    Command::Strings,
];

impl Command {
    /// The command's word, in capitals.
    pub fn word(self) -> &'static [u8]
        ensures { result.now ≡ word_of self }
    {
        match self {
            Command::Entry => b"ENTRY",
            Command::Execute => b"EXECUTE",
            Command::Function => b"FUNCTION",
            Command::Integers => b"INTEGERS",
            Command::Iterate => b"ITERATE",
            Command::Macro => b"MACRO",
            Command::Read => b"READ",
            Command::Reverse => b"REVERSE",
            Command::Sort => b"SORT",
            Command::Strings => b"STRINGS",
        }
    }
}

/// All commands, in the order of the alphabet.
#[tactic(auto, unfolding(crate::specs::Commands::all_commands))]
pub fn all_commands() -> &'static [Command]
    ensures { result.now ≡ all_commands }
{
    &COMMANDS
}

fn command_among(commands: &[Command], word: &[u8]) -> Option<Command>
    ensures { result ≡ find (λ command. is_same_folded word.now (word_of command)) commands.now }
{
    commands
        .iter()
        .copied()
        .find(|command| eq_ignore_ascii_case(word, command.word()))
}

/// The command of a word, in any case.
#[tactic(auto, unfolding(crate::specs::Commands::all_commands, crate::specs::Commands::command_named))]
pub fn command_named(word: &[u8]) -> Option<Command>
    ensures { result ≡ command_named word.now }
{
    command_among(&COMMANDS, word)
}

/// Whether a word is a command's, in capitals.
pub fn is_command_word(word: &[u8]) -> bool
    ensures { result ≡ is_command_word word.now }
{
    match command_named(word) {
        Some(command) => command.word() == word,
        None => false,
    }
}
