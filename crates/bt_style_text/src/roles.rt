//! The role of a word, by what stands before it.

ghost use Rattle.std.specs.Prelude.{◌≡◌, ◌<◌, ◌≤◌, ◌^◌, ◌-◌, ◌+◌};
ghost use Rattle.bt_style_text.specs.Roles.{body_role, role_in, begins_command, plain_role, role_of, next_group, opened, closed, context_after};

use crate::commands::{Command, command_named, is_command_word};
use crate::words::WordKind;

/// What a name is declared as.
#[derive(Clone, Copy)]
pub enum Kind {
    Field,
    EntryInteger,
    EntryString,
    GlobalInteger,
    GlobalString,
    Function,
    Macro,
}

/// What a word does in a style.
#[derive(Clone, Copy)]
pub enum Role {
    /// It begins a command.
    Command(Command),
    Declared(Kind),
    /// A name that is run or read.
    Called,
    /// A name after a single quote.
    Quoted,
    Number,
    Literal,
    /// A literal with a fault.
    Broken,
    Comment,
    Open,
    Close,
    /// A word that can't stand there.
    Stray,
}

/// How many of a command's arguments in braces have begun.
#[derive(Clone, Copy)]
pub enum Group {
    None,
    First,
    Second,
    Third,
    Later,
}

/// Where a word stands: in which command, in which of its arguments, and how deep in braces.
#[derive(Clone, Copy)]
pub struct Context {
    pub command: Option<Command>,
    pub group: Group,
    pub depth: usize,
}

/// Before any command.
pub const TOP: Context = Context {
    command: None,
    group: Group::None,
    depth: 0,
};

fn body_role(word: &[u8]) -> Role
    ensures { result ≡ body_role word.now }
{
    match word {
        [b'\'', ..] => Role::Quoted,
        [b'#', ..] => Role::Number,
        _ => Role::Called,
    }
}

fn role_in(command: Command, group: Group, word: &[u8]) -> Role
    ensures { result ≡ role_in command group word.now }
{
    match (command, group) {
        (Command::Entry, Group::First) => Role::Declared(Kind::Field),
        (Command::Entry, Group::Second) => Role::Declared(Kind::EntryInteger),
        (Command::Entry, Group::Third) => Role::Declared(Kind::EntryString),
        (Command::Integers, Group::First) => Role::Declared(Kind::GlobalInteger),
        (Command::Strings, Group::First) => Role::Declared(Kind::GlobalString),
        (Command::Function, Group::First) => Role::Declared(Kind::Function),
        (Command::Function, Group::Second) => body_role(word),
        (Command::Macro, Group::First) => Role::Declared(Kind::Macro),
        (Command::Execute, Group::First) => Role::Called,
        (Command::Iterate, Group::First) => Role::Called,
        (Command::Reverse, Group::First) => Role::Called,
        _ => Role::Stray,
    }
}

/// Whether a word begins a command: outside of braces every word should, and inside one in capitals does, so that a
/// missing brace is felt only up to the next command.
fn begins_command(depth: usize, word: &[u8]) -> bool
    ensures { result ≡ begins_command depth word.now }
{
    depth == 0 || is_command_word(word)
}

fn plain_role(context: Context, word: &[u8]) -> Role
    ensures { result ≡ plain_role context word.now }
{
    if begins_command(context.depth, word) {
        match command_named(word) {
            Some(command) => Role::Command(command),
            None => Role::Stray,
        }
    } else if context.depth == 1 {
        match context.command {
            Some(command) => role_in(command, context.group, word),
            None => Role::Stray,
        }
    } else {
        body_role(word)
    }
}

/// The role of a word.
pub fn role_of(context: Context, kind: WordKind, word: &[u8]) -> Role
    ensures { result ≡ role_of context kind word.now }
{
    match kind {
        WordKind::Open => Role::Open,
        WordKind::Close => Role::Close,
        WordKind::Plain => plain_role(context, word),
        WordKind::Literal => Role::Literal,
        WordKind::Broken => Role::Broken,
        WordKind::Comment => Role::Comment,
    }
}

fn next_group(group: Group) -> Group
    ensures { result ≡ next_group group }
{
    match group {
        Group::None => Group::First,
        Group::First => Group::Second,
        Group::Second => Group::Third,
        Group::Third | Group::Later => Group::Later,
    }
}

fn opened(context: Context) -> Context
    requires { context.depth < 2 ^ 64 - 1 }
    ensures value { result ≡ opened context }
    ensures deeper { result.depth ≤ context.depth + 1 }
{
    if context.depth == 0 {
        Context {
            command: context.command,
            group: next_group(context.group),
            depth: 1,
        }
    } else {
        Context {
            command: context.command,
            group: context.group,
            depth: context.depth + 1,
        }
    }
}

fn closed(context: Context) -> Context
    ensures value { result ≡ closed context }
    ensures deeper { result.depth ≤ context.depth }
{
    Context {
        command: context.command,
        group: context.group,
        depth: context.depth.saturating_sub(1),
    }
}

/// Where the next word stands.
pub fn context_after(context: Context, kind: WordKind, word: &[u8]) -> Context
    requires { context.depth < 2 ^ 64 - 1 }
    ensures value { result ≡ context_after context kind word.now }
    ensures deeper { result.depth ≤ context.depth + 1 }
{
    match kind {
        WordKind::Open => opened(context),
        WordKind::Close => closed(context),
        WordKind::Plain => if begins_command(context.depth, word) {
            Context {
                command: command_named(word),
                group: Group::None,
                depth: 0,
            }
        } else {
            context
        },
        WordKind::Literal | WordKind::Broken | WordKind::Comment => context,
    }
}
