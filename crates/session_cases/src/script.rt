//! Scripts have a step on each line. Its first word says what it does; the bytes that it brings follow the line.

use anyhow::Result;

/// What is left of a script.
#[derive(Drop)]
pub struct Script<'a> {
    rest: &'a [u8],
}

/// What the steps of a case work on.
pub trait Case: Drop {
    /// The value before the first step.
    fn begun(rt: &HostRuntime) -> Result<Self>;

    /// Carries out a step, and prints its result.
    fn carry_out<'a>(
        &mut self,
        rt: &HostRuntime,
        line: &'a str,
        script: &mut Script<'a>,
    ) -> Result<()>;
}

impl<'a> Script<'a> {
    pub fn new(rest: &'a [u8]) -> Self {
        Script { rest }
    }

    /// Takes the next line; none if no line feed is left, or if the line isn't UTF-8.
    pub fn line(&mut self) -> Option<&'a str> {
        let end = self.rest.iter().position(|byte| *byte == b'\n')?;
        let line = str::from_utf8(self.rest.get(..end)?).ok()?;
        self.rest = self.rest.get(end..)?.get(1..)?;
        Some(line)
    }

    /// Takes `count` bytes, or all that are left.
    pub fn bytes(&mut self, count: usize) -> &'a [u8] {
        let (bytes, rest) = self.rest.split_at(count.min(self.rest.len()));
        self.rest = rest;
        bytes
    }
}

/// The first word of a line, and what follows the space after it.
pub fn split(line: &str) -> (&str, &str) {
    line.split_once(' ').unwrap_or((line, ""))
}

/// The number that a word spells, or 0.
pub fn number(word: &str) -> usize {
    word.parse::<usize>().unwrap_or(0)
}

/// Bytes to be printed.
pub fn text(bytes: &[u8]) -> &str {
    str::from_utf8(bytes).unwrap_or("no text\n")
}

/// Runs cases up to the line `end`, or to the end of the script; a line `case NAME` begins one.
pub fn answer_all<C: Case>(rt: &HostRuntime, script: &mut Script<'_>, end: &str) -> Result<()> {
    let mut case = C::begun(rt)?;
    for _ in 0..u32::MAX {
        match script.line() {
            Some(line) if line.starts_with("case ") => {
                println!(rt; "{line}")?;
                case = C::begun(rt)?;
            }
            Some(line) if line != end => case.carry_out(rt, line, script)?,
            _ => break,
        }
    }
    Ok(())
}
