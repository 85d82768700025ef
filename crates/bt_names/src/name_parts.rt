//! Splits the tokens of a name into its four parts.

ghost use Rattle.std.specs.Prelude.{◌≡◌, ◌≤◌, ◌-◌, ◌==◌, not, IfOk, Some, length, count_by};
ghost use Rattle.std.specs.List.{position_or_len, suffix_len};
ghost use Rattle.bt_text.specs.Blocks.{blocks};
ghost use Rattle.bt_text.specs.ByteTests.{hyphen};
ghost use Rattle.bt_names.specs.inner.Cases.{is_comma};
ghost use Rattle.bt_names.specs.Vons.{is_von};
ghost use Rattle.bt_names.specs.NameParts.{all_but_last, last_start, parts_of, split_at_two, von_end, von_start, with_commas, without_comma};

use crate::cuts::{after_comma, push_section};
use crate::lent_tokens::{LentParts, LentToken};
use crate::name::Name;
use crate::vons::is_von;
use std::alloc::{AllocError, Global};
use std::marker::Model;

fn all_but_last<'t, 'a>(tokens: &'t [LentToken<'a>]) -> &'t [LentToken<'a>]
    ensures { result.now ≡ all_but_last tokens.now }
{
    &tokens[..tokens.len().saturating_sub(1)]
}

fn tokens_before_von(tokens: &[LentToken]) -> usize
    ensures within { result ≤ length tokens.now }
    ensures len { result ≡ position_or_len is_von tokens.now }
{
    tokens.iter().take_while(|token| !is_von(*token)).count()
}

fn tokens_after_von(tokens: &[LentToken]) -> usize
    ensures within { result ≤ length tokens.now }
    ensures len { result ≡ suffix_len (λ w. not (is_von w)) tokens.now }
{
    tokens
        .iter()
        .rev()
        .take_while(|token| !is_von(*token))
        .count()
}

/// Whether a hyphen stands before a token.
fn is_tied(token: &LentToken) -> bool
    ensures { result ≡ (token.now.before == hyphen) }
{
    token.before() == b'-'
}

/// How many tokens at the end have a hyphen before them.
fn tied_tokens(tokens: &[LentToken]) -> usize
    ensures within { result ≤ length tokens.now }
    ensures len { result ≡ suffix_len (λ w. w.before == hyphen) tokens.now }
{
    tokens
        .iter()
        .rev()
        .take_while(|token| is_tied(*token))
        .count()
}

fn von_start(tokens: &[LentToken]) -> usize
    ensures { result ≡ von_start tokens.now }
{
    tokens_before_von(all_but_last(tokens))
}

fn von_end(tokens: &[LentToken]) -> usize
    ensures within { result ≤ length tokens.now }
    ensures place { result ≡ von_end tokens.now }
{
    let front = all_but_last(tokens);
    front.len() - tokens_after_von(front)
}

/// Where the last name begins if there are no von tokens.
fn last_start(tokens: &[LentToken]) -> usize
    ensures within { result ≤ length tokens.now }
    ensures place { result ≡ last_start tokens.now }
{
    tokens.len().saturating_sub(tied_tokens(tokens) + 1)
}

fn split_at_two<'t, 'a>(tokens: &'t [LentToken<'a>], start: usize, end: usize) -> LentParts<'t, 'a>
    requires first { start ≤ end }
    requires second { end ≤ length tokens.now }
    ensures { result ≡ split_at_two tokens.now start end }
{
    LentParts {
        first: &tokens[..start],
        von: &tokens[start..end],
        last: &tokens[end..],
        jr: &[],
    }
}

fn without_comma<'t, 'a>(tokens: &'t [LentToken<'a>]) -> LentParts<'t, 'a>
    ensures { result ≡ without_comma tokens.now }
{
    let start = von_start(tokens);
    let end = von_end(tokens);
    if start < end {
        split_at_two(tokens, start, end)
    } else {
        let start = last_start(tokens);
        split_at_two(tokens, start, start)
    }
}

fn with_commas<'t, 'a>(
    tokens: &'t [LentToken<'a>],
    jr: &'t [LentToken<'a>],
    first: &'t [LentToken<'a>],
) -> LentParts<'t, 'a>
    ensures { result ≡ with_commas tokens.now jr.now first.now }
{
    let end = von_end(tokens);
    LentParts {
        first,
        von: &tokens[..end],
        last: &tokens[end..],
        jr,
    }
}

/// The tokens of a name, one section after another. Contracts see the parts of the name.
#[derive(Drop)]
pub struct Cut<'a> {
    /// How many commas it has. A `bool` would do, but the whole moves faster without one.
    commas: usize,
    tokens: Vec<LentToken<'a>>,
    /// How many tokens stand before the first comma.
    front: usize,
    /// How many tokens stand before the last comma.
    others: usize,
}

impl<'a> Model for Cut<'a> {
    ghost use Rattle.std.specs.Prelude.{◌≤◌, ◌==◌, if◌then◌else◌, length, take, drop, slice_range};
    ghost use Rattle.bt_names.specs.declared.tokens.Parts.{Parts};
    ghost use Rattle.bt_names.specs.NameParts.{with_commas, without_comma};

    ghost Value = { Parts };

    ghost view = { λ c. if c.commas == 0
        then without_comma c.tokens.items
        else with_commas (take c.front c.tokens.items) (slice_range c.tokens.items c.front c.others) (drop c.others c.tokens.items) };

    ghost invariant = { λ c. (c.front ≤ c.others) × (c.others ≤ length c.tokens.items) };
}

impl<'a> Cut<'a> {
    ghost use Rattle.std.specs.Prelude.{◌≡◌, ◌<◌, ◌≤◌, length, take, drop, slice_range};
    ghost use Rattle.bt_names.specs.NameParts.{with_commas, without_comma};

    /// A name without a comma.
    fn whole(tokens: Vec<LentToken<'a>>) -> Cut<'a>
        ensures { result ≡ without_comma tokens.entry.items }
    {
        Cut {
            commas: 0,
            tokens,
            front: 0,
            others: 0,
        }
    }

    /// A name with commas.
    fn at(commas: usize, tokens: Vec<LentToken<'a>>, front: usize, others: usize) -> Cut<'a>
        requires some { 0 < commas }
        requires first { front ≤ others }
        requires second { others ≤ length tokens.items }
        ensures { result ≡ with_commas (take front tokens.entry.items) (slice_range tokens.entry.items front others)
            (drop others tokens.entry.items) }
    {
        Cut {
            commas,
            tokens,
            front,
            others,
        }
    }

    /// The four parts of the name.
    pub fn parts(&self) -> LentParts<'_, 'a>
        ensures { result ≡ self.now }
    {
        if self.commas > 0 {
            with_commas(
                &self.tokens[..self.front],
                &self.tokens[self.front..self.others],
                &self.tokens[self.others..],
            )
        } else {
            without_comma(&self.tokens)
        }
    }
}

/// How many tokens there is room for at first: most names have no more.
const TOKENS: usize = 8;

/// A name, cut at its commas.
pub fn cut_name<'a>(alloc: Global, name: &'a Name) -> Result<Cut<'a>, AllocError>
    requires { count_by is_comma (blocks name.now) ≤ 2 }
    ensures { IfOk result (λ parts. parts_of name.now ≡ Some parts) }
{
    let mut tokens = Vec::with_capacity(alloc, TOKENS)?;
    let rest = push_section(&mut tokens, name.kept())?;
    match after_comma(rest) {
        None => Ok(Cut::whole(tokens)),
        Some(second) => {
            let front = tokens.len();
            let rest = push_section(&mut tokens, second)?;
            match after_comma(rest) {
                None => Ok(Cut::at(1, tokens, front, front)),
                Some(third) => {
                    let others = tokens.len();
                    push_section(&mut tokens, third)?;
                    Ok(Cut::at(2, tokens, front, others))
                }
            }
        }
    }
}
