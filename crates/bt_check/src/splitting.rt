//! The kinds that a value can have on a path, and the paths on which it has a wanted one.

use crate::facts::{Assumed, Facts, Meeting};
use crate::values::{Choice, Made, Node, Value, Values, ZERO, node_kinds};
use bt_known::{ANY, Kinds, MISSING, NONE};
use bt_style::Builtin;
use std::alloc::AllocError;

/// How deep a choice is followed for its kinds. Beyond it all kinds are taken for possible.
const DEPTH: usize = 60;

/// The paths on which a value has a wanted kind.
#[derive(Drop)]
pub enum Split {
    /// All.
    Right,
    /// None.
    Wrong,
    /// Those with the first facts; on those with the second ones it hasn't.
    Both {
        right: Option<Facts>,
        wrong: Option<Facts>,
    },
}

impl Values {
    pub fn kinds(&mut self, facts: &Facts, value: Value) -> Result<Kinds, AllocError> {
        self.kinds_within(facts, value, DEPTH)
    }

    /// Whether a value is known to be empty or missing, as `by` tells.
    pub fn truth_of(&self, facts: &Facts, by: Builtin, value: Value) -> Option<bool> {
        let test = self.find(Node::Made(Made {
            by,
            first: value,
            second: ZERO,
            third: ZERO,
        }))?;
        facts.truth(test)
    }

    fn plain_kinds(&self, facts: &Facts, value: Value, node: Node) -> Kinds {
        let kinds = node_kinds(node);
        if !kinds.missing {
            return kinds;
        }
        match self.truth_of(facts, Builtin::Missing, value) {
            Some(true) => kinds.and(MISSING),
            Some(false) => kinds.without(MISSING),
            None => kinds,
        }
    }

    #[cycle(kinds)]
    fn kinds_within(
        &mut self,
        facts: &Facts,
        value: Value,
        depth: usize,
    ) -> Result<Kinds, AllocError> {
        let node = self.node(value);
        if depth == 0 || !self.spend() {
            return Ok(node_kinds(node));
        }
        match node {
            Node::Choice(choice) => self.choice_kinds(facts, choice, depth - 1),
            _ => Ok(self.plain_kinds(facts, value, node)),
        }
    }

    #[cycle(kinds)]
    fn choice_kinds(
        &mut self,
        facts: &Facts,
        choice: Choice,
        depth: usize,
    ) -> Result<Kinds, AllocError> {
        if depth == 0 || choice.kinds.is_single() {
            return Ok(choice.kinds);
        }
        match self.decide(facts, choice.test) {
            Some(true) => Ok(
                self.kinds_within(facts, choice.then, depth - 1)?
                    .and(choice.kinds),
            ),
            Some(false) => Ok(
                self.kinds_within(facts, choice.other, depth - 1)?
                    .and(choice.kinds),
            ),
            None => {
                let then = self.kinds_within(facts, choice.then, depth - 1)?;
                let other = self.kinds_within(facts, choice.other, depth - 1)?;
                let kinds = then.or(other).and(choice.kinds);
                if kinds.is_single() {
                    return Ok(kinds);
                }
                let mut assumed = Assumed {
                    value: choice.test,
                    truth: true,
                };
                let then = self.kinds_if(facts, assumed, choice.then, depth - 1)?;
                assumed.truth = false;
                let other = self.kinds_if(facts, assumed, choice.other, depth - 1)?;
                Ok(kinds.and(then.or(other)))
            }
        }
    }

    #[cycle(kinds)]
    fn kinds_if(
        &mut self,
        facts: &Facts,
        assumed: Assumed,
        value: Value,
        depth: usize,
    ) -> Result<Kinds, AllocError> {
        if depth == 0 {
            return Ok(ANY);
        }
        match self.refine(facts, assumed.value, assumed.truth)? {
            Some(facts) => self.kinds_within(&facts, value, depth - 1),
            None => Ok(NONE),
        }
    }

    /// The kinds that a value has on the first of two paths, or another one on the second.
    pub fn kinds_of_either(
        &mut self,
        paths: Meeting<'_>,
        value: Value,
        other: Value,
    ) -> Result<Kinds, AllocError> {
        let ours = self.kinds(paths.ours, value)?;
        Ok(ours.or(self.kinds(paths.theirs, other)?))
    }

    pub fn split(
        &mut self,
        facts: &Facts,
        value: Value,
        wanted: Kinds,
    ) -> Result<Split, AllocError> {
        self.split_within(facts, value, wanted, DEPTH)
    }

    #[cycle(splitting)]
    fn split_within(
        &mut self,
        facts: &Facts,
        value: Value,
        wanted: Kinds,
        depth: usize,
    ) -> Result<Split, AllocError> {
        let kinds = self.kinds(facts, value)?;
        if kinds.is_within(wanted) {
            return Ok(Split::Right);
        }
        if kinds.and(wanted).is_empty() {
            return Ok(Split::Wrong);
        }
        if depth == 0 || !self.spend() {
            return self.unsplit(facts);
        }
        match self.node(value) {
            Node::Choice(choice) => self.split_choice(facts, choice, wanted, depth - 1),
            _ => self.split_missing(facts, value, wanted, kinds),
        }
    }

    fn unsplit(&self, facts: &Facts) -> Result<Split, AllocError> {
        let right = facts.copied(self.alloc)?;
        let wrong = facts.copied(self.alloc)?;
        Ok(Split::Both {
            right: Some(right),
            wrong: Some(wrong),
        })
    }

    fn split_missing(
        &mut self,
        facts: &Facts,
        value: Value,
        wanted: Kinds,
        kinds: Kinds,
    ) -> Result<Split, AllocError> {
        if wanted.missing || !kinds.without(MISSING).is_within(wanted) {
            return self.unsplit(facts);
        }
        let test = self.plain(Builtin::Missing, value, ZERO, ZERO)?;
        let right = self.refine(facts, test, false)?;
        let wrong = self.refine(facts, test, true)?;
        Ok(Split::Both { right, wrong })
    }

    #[cycle(splitting)]
    fn split_branch(
        &mut self,
        branch: Option<Facts>,
        value: Value,
        wanted: Kinds,
        depth: usize,
    ) -> Result<(Option<Facts>, Option<Facts>), AllocError> {
        let Some(facts) = branch else {
            return Ok((None, None));
        };
        if depth == 0 {
            let wrong = facts.copied(self.alloc)?;
            return Ok((Some(facts), Some(wrong)));
        }
        match self.split_within(&facts, value, wanted, depth - 1)? {
            Split::Right => Ok((Some(facts), None)),
            Split::Wrong => Ok((None, Some(facts))),
            Split::Both { right, wrong } => Ok((right, wrong)),
        }
    }

    #[cycle(splitting)]
    fn split_choice(
        &mut self,
        facts: &Facts,
        choice: Choice,
        wanted: Kinds,
        depth: usize,
    ) -> Result<Split, AllocError> {
        if depth == 0 {
            return self.unsplit(facts);
        }
        let then = self.refine(facts, choice.test, true)?;
        let (then_right, then_wrong) = self.split_branch(then, choice.then, wanted, depth - 1)?;
        let other = self.refine(facts, choice.test, false)?;
        let (other_right, other_wrong) = self.split_branch(other, choice.other, wanted, depth - 1)?;
        let right = match (then_right, other_right) {
            (Some(then), Some(other)) => Some(then.joined(&other, self.alloc)?),
            (Some(then), None) => Some(then),
            (None, other) => other,
        };
        let wrong = match (then_wrong, other_wrong) {
            (Some(then), _) => Some(then),
            (None, other) => other,
        };
        Ok(Split::Both { right, wrong })
    }
}
