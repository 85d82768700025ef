//! What the facts of a path say of an integer: whether it is above 0, and its bounds.

use crate::facts::Facts;
use crate::values::{Choice, Made, Node, TREE_DEPTH, Value, Values, is_test, node_kinds};
use bt_known::{Bounds, UNBOUNDED};
use bt_style::Builtin;

impl Values {
    pub fn decide(&self, facts: &Facts, value: Value) -> Option<bool> {
        self.decide_within(facts, value, TREE_DEPTH)
    }

    pub fn bounds(&self, facts: &Facts, value: Value) -> Bounds {
        self.bounds_within(facts, value, TREE_DEPTH)
    }

    #[cycle(deciding)]
    fn decide_within(&self, facts: &Facts, value: Value, depth: usize) -> Option<bool> {
        if depth == 0 {
            return None;
        }
        let known = facts.truth(value);
        if known.is_some() {
            return known;
        }
        match self.node(value) {
            Node::Integer(number) => Some(number > 0),
            Node::Choice(choice) => self.decide_choice(facts, choice, depth - 1),
            Node::Made(made) => self.decide_made(facts, value, made, depth - 1),
            node => {
                if node_kinds(node).integer {
                    self.bounds_within(facts, value, depth - 1).is_positive()
                } else {
                    None
                }
            }
        }
    }

    #[cycle(deciding)]
    fn decide_choice(&self, facts: &Facts, choice: Choice, depth: usize) -> Option<bool> {
        if depth == 0 {
            return None;
        }
        match self.decide_within(facts, choice.test, depth - 1) {
            Some(true) => self.decide_within(facts, choice.then, depth - 1),
            Some(false) => self.decide_within(facts, choice.other, depth - 1),
            None => {
                let then = self.decide_within(facts, choice.then, depth - 1);
                let other = self.decide_within(facts, choice.other, depth - 1);
                if then == other { then } else { None }
            }
        }
    }

    #[cycle(deciding)]
    fn decide_made(&self, facts: &Facts, value: Value, made: Made, depth: usize) -> Option<bool> {
        if depth == 0 {
            return None;
        }
        match made.by {
            Builtin::Equals => self.decide_equality(facts, made),
            Builtin::Empty => match facts.of(made.first).only {
                Some(only) => Some(!self.is_solid(only)),
                None => None,
            },
            Builtin::Greater => {
                let first = self.bounds_within(facts, made.first, depth - 1);
                first.is_above(self.bounds_within(facts, made.second, depth - 1))
            },
            Builtin::Less => {
                let second = self.bounds_within(facts, made.second, depth - 1);
                second.is_above(self.bounds_within(facts, made.first, depth - 1))
            },
            _ => self.bounds_within(facts, value, depth - 1).is_positive(),
        }
    }

    fn decide_equality(&self, facts: &Facts, made: Made) -> Option<bool> {
        match (facts.of(made.first).only, self.node(made.second)) {
            (Some(only), Node::Text(_)) => Some(only == made.second),
            _ => None,
        }
    }

    #[cycle(deciding)]
    fn bounds_within(&self, facts: &Facts, value: Value, depth: usize) -> Bounds {
        if depth == 0 {
            return UNBOUNDED;
        }
        let bounds = match self.node(value) {
            Node::Integer(number) => Bounds::exactly(number),
            Node::Unknown(unknown) => unknown.bounds,
            Node::Choice(choice) => self.choice_bounds(facts, choice, depth - 1),
            Node::Made(made) => self.made_bounds(facts, made, depth - 1),
            _ => UNBOUNDED,
        };
        bounds.and(facts.of(value).bounds)
    }

    #[cycle(deciding)]
    fn choice_bounds(&self, facts: &Facts, choice: Choice, depth: usize) -> Bounds {
        if depth == 0 {
            return UNBOUNDED;
        }
        match self.decide_within(facts, choice.test, depth - 1) {
            Some(true) => self.bounds_within(facts, choice.then, depth - 1),
            Some(false) => self.bounds_within(facts, choice.other, depth - 1),
            None => {
                let then = self.bounds_within(facts, choice.then, depth - 1);
                then.or(self.bounds_within(facts, choice.other, depth - 1))
            }
        }
    }

    #[cycle(deciding)]
    fn made_bounds(&self, facts: &Facts, made: Made, depth: usize) -> Bounds {
        if depth == 0 {
            return UNBOUNDED;
        }
        match made.by {
            Builtin::Plus => {
                let first = self.bounds_within(facts, made.first, depth - 1);
                first.sum(self.bounds_within(facts, made.second, depth - 1))
            }
            Builtin::Minus => {
                let first = self.bounds_within(facts, made.first, depth - 1);
                first.difference(self.bounds_within(facts, made.second, depth - 1))
            }
            Builtin::NumNames => {
                let is_given = self.decide_within(facts, made.second, depth - 1) == Some(false);
                Bounds::at_least(i64::from(is_given))
            }
            Builtin::ChrToInt | Builtin::TextLength => Bounds::at_least(0),
            by => {
                if is_test(by) {
                    Bounds { low: 0, high: 1 }
                } else {
                    UNBOUNDED
                }
            }
        }
    }
}
