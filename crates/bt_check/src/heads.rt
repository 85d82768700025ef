//! The heads of a loop: what is known each time that it begins a turn, for each depth of the stack.

use crate::checker::Checker;
use crate::facts::Meeting;
use crate::fault::FaultKind;
use crate::state::State;
use crate::values::{Node, Unknown, Value};
use bt_known::{Bounds, INTEGER, Kinds, UNBOUNDED};
use bt_style::Builtin;
use std::alloc::AllocError;

const MOST_HEADS: usize = 12;

/// What is known each time that a loop begins a turn with a stack of one depth.
#[derive(Drop)]
struct Head {
    state: State,
    /// The states in which it ends from here.
    exits: Vec<State>,
    /// Whether it changed since its turn was evaluated.
    is_new: bool,
}

#[derive(Drop)]
pub struct Heads {
    all: Vec<Head>,
    /// The place of the head from which the present turn began.
    begun: usize,
}

impl<'a> Checker<'a> {
    pub fn first_heads(&mut self, state: Option<State>) -> Result<Heads, AllocError> {
        let mut all = Vec::new(self.alloc);
        if let Some(state) = state {
            self.add_head(&mut all, state)?;
        }
        Ok(Heads { all, begun: 0 })
    }

    /// The state with which the next turn begins; none if no head is new.
    pub fn begin(&mut self, heads: &mut Heads) -> Result<Option<State>, AllocError> {
        let Some(place) = heads.all.iter().position(|head| head.is_new) else {
            return Ok(None);
        };
        heads.begun = place;
        match heads.all.get_mut(place) {
            Some(head) => {
                head.is_new = false;
                Ok(Some(head.state.copied(self.alloc)?))
            }
            None => Ok(None),
        }
    }

    pub fn leave(&mut self, heads: Heads, next: &mut Vec<State>) -> Result<(), AllocError> {
        let mut ends = Vec::new(self.alloc);
        for head in heads.all {
            let Head { mut exits, .. } = head;
            ends.append(&mut exits)?;
        }
        self.merge_to(ends, None, next)
    }

    /// Takes a turn's test from the stack: adds the state in which the loop ends, and returns the one in which it goes on.
    pub fn test_turn(
        &mut self,
        mut state: State,
        exits: &mut Vec<State>,
    ) -> Result<Option<State>, AllocError> {
        let Some(test) = self.take_test(&mut state)? else {
            return Ok(None);
        };
        let (back, exit) = self.forked(test, Some(state))?;
        if let Some(exit) = exit {
            exits.push(exit)?;
        }
        Ok(back)
    }

    fn take_test(&mut self, state: &mut State) -> Result<Option<Value>, AllocError> {
        let Some(test) = state.stack.pop() else {
            self.tell(
                FaultKind::Empty,
                Some(Builtin::While),
                &[b"the test of while$ leaves nothing on the stack"],
                &state.facts,
            )?;
            return Ok(None);
        };
        let is_left = self.settle(Builtin::While, state, test, INTEGER)?;
        Ok(if is_left { Some(test) } else { None })
    }

    /// Makes the heads of a loop cover a state in which a turn comes back.
    fn cover(&mut self, heads: &mut Vec<Head>, back: State) -> Result<(), AllocError> {
        let depth = back.depth();
        match heads.iter().position(|head| head.state.depth() == depth) {
            Some(place) => self.widen_head(heads, place, &back),
            None => self.add_head(heads, back),
        }
    }

    fn widen_head(
        &mut self,
        heads: &mut Vec<Head>,
        place: usize,
        back: &State,
    ) -> Result<(), AllocError> {
        if let Some(head) = heads.get_mut(place) {
            let is_wider = self.widen(&mut head.state, back)?;
            head.is_new = head.is_new || is_wider;
        }
        Ok(())
    }

    pub fn come_back(
        &mut self,
        heads: &mut Heads,
        exits: Vec<State>,
        backs: Vec<State>,
    ) -> Result<(), AllocError> {
        if let Some(head) = heads.all.get_mut(heads.begun) {
            head.exits = exits;
        }
        for back in backs {
            self.cover(&mut heads.all, back)?;
        }
        Ok(())
    }

    fn add_head(&mut self, heads: &mut Vec<Head>, state: State) -> Result<(), AllocError> {
        if heads.len() >= MOST_HEADS {
            return self.tell(
                FaultKind::Loop,
                Some(Builtin::While),
                &[b"each turn of the loop changes the depth of the stack"],
                &state.facts,
            );
        }
        heads.push(Head {
            state,
            exits: Vec::new(self.alloc),
            is_new: true,
        })?;
        Ok(())
    }

    /// Makes a head cover another state of its depth, and says whether it changed. What a turn changes becomes unknown,
    /// with the kinds and bounds that it can have.
    fn widen(&mut self, head: &mut State, other: &State) -> Result<bool, AllocError> {
        let paths = Meeting {
            ours: &head.facts,
            theirs: &other.facts,
        };
        let stack = self.widen_all(paths, &mut head.stack, other.stack.as_slice())?;
        let variables = self.widen_all(paths, &mut head.variables, other.variables.as_slice())?;
        let facts = head.facts.joined(&other.facts, self.alloc)?;
        let is_same = facts.is_same(&head.facts);
        head.facts = facts;
        Ok(stack || variables || !is_same)
    }

    fn widen_all(
        &mut self,
        paths: Meeting<'_>,
        values: &mut Vec<Value>,
        others: &[Value],
    ) -> Result<bool, AllocError> {
        let mut is_changed = false;
        for place in 0..others.len() {
            if let (Some(value), Some(other)) = (values.get_mut(place), others.get(place)) {
                if *value != *other {
                    let wide = self.widened(paths, *value, *other)?;
                    is_changed = is_changed || wide != *value;
                    *value = wide;
                }
            }
        }
        Ok(is_changed)
    }

    fn widened(
        &mut self,
        paths: Meeting<'_>,
        value: Value,
        other: Value,
    ) -> Result<Value, AllocError> {
        let kinds = self.values.kinds_of_either(paths, value, other)?;
        let bounds = if kinds.is_within(INTEGER) {
            self.widened_bounds(paths, value, other)
        } else {
            UNBOUNDED
        };
        if let Node::Unknown(unknown) = self.values.node(value) {
            if is_covered(unknown, kinds, bounds) {
                return Ok(value);
            }
        }
        self.values.unknown(kinds, bounds, true)
    }

    /// The bounds of the old value where those of the new one are within them, else none.
    fn widened_bounds(&mut self, paths: Meeting<'_>, value: Value, other: Value) -> Bounds {
        let old = self.values.bounds(paths.ours, value);
        let new = self.values.bounds(paths.theirs, other);
        Bounds {
            low: if new.low < old.low { i64::MIN } else { old.low },
            high: if new.high > old.high {
                i64::MAX
            } else {
                old.high
            },
        }
    }
}

fn is_covered(unknown: Unknown, kinds: Kinds, bounds: Bounds) -> bool {
    unknown.is_general && unknown.kinds == kinds && unknown.bounds == bounds
}
