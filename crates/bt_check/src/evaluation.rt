//! The words that run functions: calls, `if$`, `while$` and `call.type$`.
//!
//! Each function here counts down how deep they may call each other, so evaluation ends and needs a bounded stack. What
//! they do besides calling each other is in `paths.rt` and `heads.rt`.

use crate::checker::{Arguments, Checker};
use crate::state::State;
use crate::values::{Node, Value};
use bt_style::{Builtin, Target};
use bt_words::{Act, Program, Word};
use std::alloc::AllocError;

/// How deep calls, tests and loops may stand in one another. Beyond it the analysis gives up.
pub const DEPTH: usize = 600;

/// How many values the literal stack holds. Where it may be full, the analysis gives up.
const MOST_VALUES: usize = 1000;

/// How many turns a loop is followed. Real ones take at most six.
const MOST_TURNS: usize = 100;

impl<'a> Checker<'a> {
    #[cycle(evaluation)]
    pub fn body(
        &mut self,
        body: usize,
        state: State,
        depth: usize,
    ) -> Result<Vec<State>, AllocError> {
        let mut states = self.only(state)?;
        if depth == 0 {
            self.give_up();
            return Ok(states);
        }
        let program: &'a Program = self.program;
        for (number, word) in program.body(body).iter().enumerate() {
            self.watch_word(body, number, states.as_slice())?;
            let mut next = Vec::new(self.alloc);
            for state in states {
                self.word(*word, state, &mut next, depth - 1)?;
            }
            states = self.merged(next)?;
        }
        Ok(states)
    }

    /// Runs a word on a state, and adds the states after it.
    #[cycle(evaluation)]
    fn word(
        &mut self,
        word: Word,
        state: State,
        next: &mut Vec<State>,
        depth: usize,
    ) -> Result<(), AllocError> {
        if depth == 0 || state.depth() >= MOST_VALUES || !self.spend() {
            self.give_up();
            return Ok(());
        }
        self.at_line(word.line);
        match word.act {
            Act::Call(target) => self.call(target, state, next, depth - 1),
            act => self.push_constant(act, state, next),
        }
    }

    #[cycle(evaluation)]
    pub fn call(
        &mut self,
        target: Target,
        state: State,
        next: &mut Vec<State>,
        depth: usize,
    ) -> Result<(), AllocError> {
        if depth == 0 {
            self.give_up();
            return Ok(());
        }
        match target {
            Target::Function(function) => self.enter(function, state, next, depth - 1),
            Target::Builtin(by) => self.builtin(by, state, next, depth - 1),
            _ => self.push_held(target, state, next),
        }
    }

    #[cycle(evaluation)]
    fn enter(
        &mut self,
        function: usize,
        state: State,
        next: &mut Vec<State>,
        depth: usize,
    ) -> Result<(), AllocError> {
        if depth == 0 {
            self.give_up();
            return Ok(());
        }
        self.open_call(function)?;
        let states = self.body(function, state, depth - 1)?;
        self.close_call();
        add(states, next)
    }

    #[cycle(evaluation)]
    fn builtin(
        &mut self,
        by: Builtin,
        state: State,
        next: &mut Vec<State>,
        depth: usize,
    ) -> Result<(), AllocError> {
        if depth == 0 {
            self.give_up();
            return Ok(());
        }
        match by {
            Builtin::If => {
                let (arguments, state) = self.taken(by, state)?;
                self.branch(arguments, state, next, depth - 1)
            }
            Builtin::While => {
                let (arguments, state) = self.taken(by, state)?;
                self.repeat(arguments, state, next, depth - 1)
            }
            Builtin::CallType => self.call_type(state, next, depth - 1),
            _ => self.push_basic(by, state, next),
        }
    }

    /// Runs one function on the paths where a test is above 0, and another one on the others.
    #[cycle(evaluation)]
    fn branch(
        &mut self,
        arguments: Arguments,
        state: Option<State>,
        next: &mut Vec<State>,
        depth: usize,
    ) -> Result<(), AllocError> {
        if depth == 0 {
            self.give_up();
            return Ok(());
        }
        let [test, then, other] = arguments;
        let (yes, no) = self.forked(test, state)?;
        let mut ends = Vec::new(self.alloc);
        if let Some(yes) = yes {
            self.run(then, yes, &mut ends, depth - 1)?;
        }
        if let Some(no) = no {
            self.run(other, no, &mut ends, depth - 1)?;
        }
        self.merge_to(ends, Some(test), next)
    }

    #[cycle(evaluation)]
    fn run(
        &mut self,
        value: Value,
        state: State,
        next: &mut Vec<State>,
        depth: usize,
    ) -> Result<(), AllocError> {
        if depth == 0 {
            self.give_up();
            return Ok(());
        }
        match self.node(value) {
            Node::Choice(choice) => {
                let arguments = [choice.test, choice.then, choice.other];
                self.branch(arguments, Some(state), next, depth - 1)
            }
            Node::Quoted(target) => self.call(target, state, next, depth - 1),
            Node::Block(body) => {
                let line = self.line();
                let states = self.body(body, state, depth - 1)?;
                self.at_line(line);
                add(states, next)
            }
            _ => self.tell_unknown(&state),
        }
    }

    #[cycle(evaluation)]
    fn call_type(
        &mut self,
        state: State,
        next: &mut Vec<State>,
        depth: usize,
    ) -> Result<(), AllocError> {
        if depth == 0 {
            self.give_up();
            return Ok(());
        }
        if !self.may_call_type(&state)? {
            return Ok(());
        }
        let mut ends = Vec::new(self.alloc);
        for typed in self.typed(state)? {
            match typed.function {
                Some(function) => self.enter(function, typed.state, &mut ends, depth - 1)?,
                None => ends.push(typed.state)?,
            }
        }
        self.merge_to(ends, None, next)
    }

    /// Runs a loop until no turn leaves a state that its heads don't cover.
    #[cycle(evaluation)]
    fn repeat(
        &mut self,
        arguments: Arguments,
        state: Option<State>,
        next: &mut Vec<State>,
        depth: usize,
    ) -> Result<(), AllocError> {
        if depth == 0 {
            self.give_up();
            return Ok(());
        }
        let mut heads = self.first_heads(state)?;
        for _ in 0..MOST_TURNS {
            match self.begin(&mut heads)? {
                Some(begun) => {
                    let mut exits = Vec::new(self.alloc);
                    let backs = self.turn(arguments, begun, &mut exits, depth - 1)?;
                    self.come_back(&mut heads, exits, backs)?;
                }
                None => return self.leave(heads, next),
            }
        }
        self.give_up();
        Ok(())
    }

    /// One turn of a loop: adds the states in which it ends, and returns those in which it comes back.
    #[cycle(evaluation)]
    fn turn(
        &mut self,
        arguments: Arguments,
        state: State,
        exits: &mut Vec<State>,
        depth: usize,
    ) -> Result<Vec<State>, AllocError> {
        let mut tested = Vec::new(self.alloc);
        let mut backs = Vec::new(self.alloc);
        if depth == 0 {
            self.give_up();
            return Ok(backs);
        }
        let [test, body, _] = arguments;
        self.run(test, state, &mut tested, depth - 1)?;
        for state in tested {
            if let Some(back) = self.test_turn(state, exits)? {
                self.run(body, back, &mut backs, depth - 1)?;
            }
        }
        Ok(backs)
    }
}

fn add(mut states: Vec<State>, next: &mut Vec<State>) -> Result<(), AllocError> {
    Ok(next.append(&mut states)?)
}
