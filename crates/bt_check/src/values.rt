//! The values of the analysis: trees over what isn't known before a run.
//!
//! Each different tree has one number, so a fact about a value (`facts.rt`) is a fact about every copy of it. Trees in
//! which choices are nested too deep become unknown values, which bounds the work for each word.

use bt_known::{Bounds, FIELD, FUNCTION, INTEGER, Kinds, STRING, UNBOUNDED};
use bt_style::{Builtin, Target};
use indexmap::IndexSet;
use std::alloc::{AllocError, Global};

/// The number of a tree.
pub type Value = usize;

#[derive(Clone, Copy, PartialEq, Eq, Hash)]
pub enum Node {
    Integer(i32),
    /// The constant of this number.
    Text(usize),
    /// The entry's field: a string, or missing.
    Field(usize),
    /// What the variable of this place held when the step began.
    Held { place: usize, kinds: Kinds },
    Quoted(Target),
    /// A function in braces, by its body.
    Block(usize),
    Unknown(Unknown),
    /// `then` if `test` is above 0, else `other`.
    Choice(Choice),
    Made(Made),
}

#[derive(Clone, Copy, PartialEq, Eq, Hash)]
pub struct Unknown {
    /// Tells it from other unknown values.
    pub number: usize,
    pub kinds: Kinds,
    pub bounds: Bounds,
    /// Whether it stands for a value of each turn of a loop.
    pub is_general: bool,
}

#[derive(Clone, Copy, PartialEq, Eq, Hash)]
pub struct Choice {
    pub test: Value,
    pub then: Value,
    pub other: Value,
    pub kinds: Kinds,
}

#[derive(Clone, Copy, PartialEq, Eq, Hash)]
pub struct Made {
    pub by: Builtin,
    /// Its arguments from the lowest on. `num.names$` has as its second one whether its text is empty.
    pub first: Value,
    pub second: Value,
    pub third: Value,
}

/// How large a tree is. Only what is followed again for each question counts.
#[derive(Clone, Copy)]
struct Weight {
    /// How many choices there are outside of tests.
    choices: usize,
    nodes: usize,
    /// Whether it is a string that is never empty.
    is_solid: bool,
}

/// The integer 0, also for arguments that a built-in function doesn't have.
pub const ZERO: Value = 0;

pub const ONE: Value = 1;

pub const EMPTY: Value = 2;

/// A choice with more choices in it and in its test becomes unknown.
const MOST_CHOICES: usize = 12;
/// A tree with more nodes becomes unknown.
const MOST_NODES: usize = 200;
/// No question follows a tree deeper than it can be.
pub const TREE_DEPTH: usize = 2 * MOST_NODES;

#[derive(Drop)]
pub struct Values {
    pub alloc: Global,
    nodes: IndexSet<Node>,
    weights: Vec<Weight>,
    unknowns: usize,
    /// How many steps the analysis may still take.
    pub work: u64,
}

impl Values {
    pub fn new(alloc: Global, empty_text: usize, work: u64) -> Result<Values, AllocError> {
        let mut values = Values {
            alloc,
            nodes: IndexSet::new(alloc),
            weights: Vec::new(alloc),
            unknowns: 0,
            work,
        };
        values.make(Node::Integer(0), false)?;
        values.make(Node::Integer(1), false)?;
        values.make(Node::Text(empty_text), false)?;
        Ok(values)
    }

    pub fn node(&self, value: Value) -> Node {
        self.nodes
            .get_index(value)
            .copied()
            .unwrap_or(Node::Integer(0))
    }

    pub fn find(&self, node: Node) -> Option<Value> {
        self.nodes.get_index_of(&node)
    }

    fn weight(&self, value: Value) -> Weight {
        self.weights.get(value).copied().unwrap_or(Weight {
            choices: 0,
            nodes: 1,
            is_solid: false,
        })
    }

    pub fn is_solid(&self, value: Value) -> bool {
        self.weight(value).is_solid
    }

    fn weight_of(&self, node: Node, is_solid: bool) -> Weight {
        match node {
            Node::Choice(choice) => self.choice_weight(choice),
            Node::Made(made) => self.made_weight(made),
            _ => Weight {
                choices: 0,
                nodes: 1,
                is_solid,
            },
        }
    }

    fn choice_weight(&self, choice: Choice) -> Weight {
        let test = self.weight(choice.test);
        let then = self.weight(choice.then);
        let other = self.weight(choice.other);
        Weight {
            choices: then.choices.saturating_add(other.choices).saturating_add(1),
            nodes: test
                .nodes
                .saturating_add(then.nodes)
                .saturating_add(other.nodes)
                .saturating_add(1),
            is_solid: then.is_solid && other.is_solid,
        }
    }

    fn made_weight(&self, made: Made) -> Weight {
        let first = self.weight(made.first);
        let second = self.weight(made.second);
        let nodes = match made.by {
            Builtin::Greater | Builtin::Less | Builtin::Plus | Builtin::Minus => {
                first.nodes.saturating_add(second.nodes).saturating_add(1)
            }
            Builtin::NumNames => second.nodes.saturating_add(1),
            _ => 1,
        };
        Weight {
            choices: 0,
            nodes,
            is_solid: match made.by {
                Builtin::Join => first.is_solid || second.is_solid,
                Builtin::IntToStr => true,
                _ => false,
            },
        }
    }

    /// The number of a tree. `is_solid` is asked of constants.
    pub fn make(&mut self, node: Node, is_solid: bool) -> Result<Value, AllocError> {
        let weight = self.weight_of(node, is_solid);
        let (value, is_new) = self.nodes.insert_full(node)?;
        if is_new {
            self.weights.push(weight)?;
        }
        Ok(value)
    }

    pub fn unknown(
        &mut self,
        kinds: Kinds,
        bounds: Bounds,
        is_general: bool,
    ) -> Result<Value, AllocError> {
        self.unknowns = self.unknowns.saturating_add(1);
        let number = self.unknowns;
        self.make(
            Node::Unknown(Unknown {
                number,
                kinds,
                bounds,
                is_general,
            }),
            false,
        )
    }

    pub fn any(&mut self, kinds: Kinds) -> Result<Value, AllocError> {
        self.unknown(kinds, UNBOUNDED, false)
    }

    /// What a built-in function makes of values, without any simplification.
    pub fn plain(
        &mut self,
        by: Builtin,
        first: Value,
        second: Value,
        third: Value,
    ) -> Result<Value, AllocError> {
        let made = Made {
            by,
            first,
            second,
            third,
        };
        let weight = self.made_weight(made);
        if weight.nodes > MOST_NODES {
            return self.any(made_kinds(by));
        }
        self.make(Node::Made(made), false)
    }

    fn is_choice_by(&self, value: Value, test: Value) -> Option<Choice> {
        match self.node(value) {
            Node::Choice(choice) if choice.test == test => Some(choice),
            _ => None,
        }
    }

    /// `then` if `test` is above 0, else `other`; they have these kinds.
    pub fn choice(
        &mut self,
        test: Value,
        then: Value,
        other: Value,
        kinds: Kinds,
    ) -> Result<Value, AllocError> {
        if let Node::Integer(number) = self.node(test) {
            return Ok(if number > 0 { then } else { other });
        }
        let is_bit = self.is_bit(test);
        let mut then = if is_bit && then == test { ONE } else { then };
        let mut other = if is_bit && other == test { ZERO } else { other };
        if is_bit && then == ONE && other == ZERO {
            return Ok(test);
        }
        if let Some(inner) = self.is_choice_by(then, test) {
            then = inner.then;
        }
        if let Some(inner) = self.is_choice_by(other, test) {
            other = inner.other;
        }
        if then == other {
            return Ok(then);
        }
        self.new_choice(Choice {
            test,
            then,
            other,
            kinds,
        })
    }

    fn new_choice(&mut self, choice: Choice) -> Result<Value, AllocError> {
        let weight = self.choice_weight(choice);
        let choices = weight
            .choices
            .saturating_add(self.weight(choice.test).choices);
        if weight.nodes > MOST_NODES || (choices > MOST_CHOICES && !choice.kinds.function) {
            return self.any(choice.kinds);
        }
        self.make(Node::Choice(choice), false)
    }

    fn is_bit(&self, value: Value) -> bool {
        match self.node(value) {
            Node::Made(made) => is_test(made.by),
            _ => false,
        }
    }
}

/// Whether a built-in function makes only 1 and 0.
pub fn is_test(by: Builtin) -> bool {
    matches!(
        by,
        Builtin::Greater | Builtin::Less | Builtin::Equals | Builtin::Empty | Builtin::Missing
    )
}

pub fn made_kinds(by: Builtin) -> Kinds {
    match by {
        Builtin::Plus
        | Builtin::Minus
        | Builtin::ChrToInt
        | Builtin::NumNames
        | Builtin::TextLength
        | Builtin::Width => INTEGER,
        _ => { if is_test(by) { INTEGER } else { STRING } }
    }
}

/// The kinds of a tree that isn't a choice, before any fact.
pub fn node_kinds(node: Node) -> Kinds {
    match node {
        Node::Integer(_) => INTEGER,
        Node::Text(_) => STRING,
        Node::Field(_) => FIELD,
        Node::Held { kinds, .. } => kinds,
        Node::Quoted(_) | Node::Block(_) => FUNCTION,
        Node::Unknown(unknown) => unknown.kinds,
        Node::Choice(choice) => choice.kinds,
        Node::Made(made) => made_kinds(made.by),
    }
}
