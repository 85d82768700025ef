//! The search: bodies are followed from state to state.
//!
//! Each function counts down how deep they may call each other, so the search ends and needs a bounded stack. A function
//! is followed at each call, from all states there. What each finds is what its contract says, by the rules of
//! `specs/Rules.antt`; how states are joined, which heads a loop gets and when the work ends needs no proof.

ghost use Rattle.std.specs.Prelude.{◌∷◌, [], IfOk};
ghost use Rattle.bt_style.specs.declared.builtin.Builtin.TheVariants as builtins;
ghost use Rattle.bt_style.specs.declared.style.Target.TheVariants as targets;
ghost use Rattle.bt_style.specs.Tree.{Called, element_of, ops_body};
ghost use Rattle.bt_style.specs.Program.{program_of};
ghost use Rattle.bt_actions.specs.View.{code_seen};
ghost use Rattle.bt_machine.specs.Eval.{code_body};
ghost use Rattle.bt_sound.specs.Follows.{Acts, Follows, FollowsTypes};
ghost use Rattle.bt_sound.specs.Seen.{TurnedSeen, state_seen, states_seen};

use crate::globals::Globals;
use crate::joining::{merged, widen_all};
use crate::parts::{
    Branch, Loop, Parts, all_copied, all_pushed, body_of, branch_of, constant, default_type_of,
    loop_of, read, simple, split,
};
use crate::state::{State, only};
use crate::stop::Stop;
use crate::within::is_closed;
use bt_actions::Code;
use bt_style::{Builtin, Op, Style, Target};
use std::alloc::Global;

/// How deep calls, branches and loops may stand in one another, counted in calls of the functions below.
pub const DEPTH: usize = 1000;

/// How many turns a loop is followed until its heads cover what its body leaves.
const MOST_TURNS: usize = 60;

/// What a style is followed by.
#[derive(Clone, Copy, Drop)]
pub struct Follower<'a> {
    pub alloc: Global,
    pub style: &'a Style,
    /// The functions of the entries' types.
    pub types: &'a [usize],
    /// The fields and variables by which states stay apart.
    pub apart: &'a [Target],
    pub globals: Globals,
}

/// One turn of a loop: the states in which it comes back, and those in which it ends.
#[derive(Drop)]
struct Turn<'a> {
    back: Vec<State<'a>>,
    ends: Vec<State<'a>>,
}

/// How many states may be followed at once: real styles need at most 200.
const MOST_STATES: usize = 1000;

/// How many pairs of states are compared in the time in which an element is followed from one.
const PAIRS: u64 = 32;

/// Takes the work of so many states from what is left: each is followed, and each two may be compared to join them.
fn spend(work: &mut u64, states: usize) -> Result<(), Stop> {
    if states > MOST_STATES {
        return Err(Stop::Refused);
    }
    let states = states as u64;
    let pairs = states.saturating_mul(states) / PAIRS;
    match work.checked_sub(states.saturating_add(pairs)) {
        Some(left) => {
            *work = left;
            Ok(())
        }
        None => Err(Stop::Refused),
    }
}

impl<'a> Follower<'a> {
    #[cycle(following)]
    fn body(
        &self,
        work: &mut u64,
        ops: &'a [Op],
        states: Vec<State<'a>>,
        depth: usize,
    ) -> Result<Vec<State<'a>>, Stop>
        ensures { IfOk result (λ after. Follows (program_of self.now.style.now) self.now.types.now (ops_body ops.now)
            (states_seen states.entry.items) (states_seen after.items)) }
    {
        if depth == 0 {
            return Err(Stop::Refused);
        }
        let mut now = states;
        'elements: for op in ops {
            let after = self.element(work, op, now, depth - 1)?;
            now = merged(self.alloc, after, self.apart)?;
        }
        Ok(now)
    }

    #[cycle(following)]
    fn element(
        &self,
        work: &mut u64,
        op: &'a Op,
        states: Vec<State<'a>>,
        depth: usize,
    ) -> Result<Vec<State<'a>>, Stop>
        ensures { IfOk result (λ after. Acts (program_of self.now.style.now) self.now.types.now (element_of op.now)
            (states_seen states.entry.items) (states_seen after.items)) }
    {
        if depth == 0 {
            return Err(Stop::Refused);
        }
        spend(work, states.len())?;
        if let Op::Call(name) = op {
            let after = self.call(work, *name, states, depth - 1)?;
            return Ok(after);
        }
        let known = constant(op)?;
        let after = all_pushed(self.alloc, known, states.as_slice())?;
        Ok(after)
    }

    /// The states after a call.
    #[cycle(following)]
    pub fn call(
        &self,
        work: &mut u64,
        name: Target,
        states: Vec<State<'a>>,
        depth: usize,
    ) -> Result<Vec<State<'a>>, Stop>
        ensures { IfOk result (λ after. Acts (program_of self.now.style.now) self.now.types.now (Called name)
            (states_seen states.entry.items) (states_seen after.items)) }
    {
        if depth == 0 {
            return Err(Stop::Refused);
        }
        match name {
            Target::Function(n) => {
                let ops = body_of(self.style, n)?;
                let after = self.body(work, ops, states, depth - 1)?;
                Ok(after)
            }
            _ => {
                let after = self.each(work, name, states.as_slice(), depth - 1)?;
                Ok(after)
            }
        }
    }

    /// The states after a call of a name that is no function of the style, from each state in turn.
    #[cycle(following)]
    fn each(
        &self,
        work: &mut u64,
        name: Target,
        states: &[State<'a>],
        depth: usize,
    ) -> Result<Vec<State<'a>>, Stop>
        ensures { IfOk result (λ after. Acts (program_of self.now.style.now) self.now.types.now (Called name)
            (states_seen states.now) (states_seen after.items)) }
    {
        let mut after = Vec::new(self.alloc);
        if depth == 0 {
            return Err(Stop::Refused);
        }
        'states: for state in states {
            let mut more = self.one(work, name, state, depth - 1)?;
            after.append(&mut more)?;
        }
        Ok(after)
    }

    /// The same from one state.
    #[cycle(following)]
    fn one(
        &self,
        work: &mut u64,
        name: Target,
        state: &State<'a>,
        depth: usize,
    ) -> Result<Vec<State<'a>>, Stop>
        ensures { IfOk result (λ after. Acts (program_of self.now.style.now) self.now.types.now (Called name)
            (state_seen state.now ∷ []) (states_seen after.items)) }
    {
        if depth == 0 {
            return Err(Stop::Refused);
        }
        match name {
            Target::Builtin(builtin) => {
                let after = self.builtin(work, builtin, state, depth - 1)?;
                Ok(after)
            }
            _ => {
                let after = read(self.alloc, name, state)?;
                Ok(after)
            }
        }
    }

    #[cycle(following)]
    fn builtin(
        &self,
        work: &mut u64,
        builtin: Builtin,
        state: &State<'a>,
        depth: usize,
    ) -> Result<Vec<State<'a>>, Stop>
        ensures { IfOk result (λ after. Acts (program_of self.now.style.now) self.now.types.now
            (Called (targets.Builtin builtin)) (state_seen state.now ∷ []) (states_seen after.items)) }
    {
        if depth == 0 {
            return Err(Stop::Refused);
        }
        match builtin {
            Builtin::If => {
                let after = self.choose(work, state, depth - 1)?;
                Ok(after)
            }
            Builtin::While => {
                let after = self.repeat(work, state, depth - 1)?;
                Ok(after)
            }
            Builtin::CallType => {
                let after = self.call_type(work, state, depth - 1)?;
                Ok(after)
            }
            _ => {
                let after = simple(self.alloc, builtin, state)?;
                Ok(after)
            }
        }
    }

    /// The states after a quoted name or a function in braces is run.
    #[cycle(following)]
    fn code(
        &self,
        work: &mut u64,
        code: Code<'a>,
        states: Vec<State<'a>>,
        depth: usize,
    ) -> Result<Vec<State<'a>>, Stop>
        ensures { IfOk result (λ after. Follows (program_of self.now.style.now) self.now.types.now (code_body (code_seen code.entry))
            (states_seen states.entry.items) (states_seen after.items)) }
    {
        if depth == 0 {
            return Err(Stop::Refused);
        }
        match code {
            Code::Name(name) => {
                let after = self.call(work, name, states, depth - 1)?;
                Ok(after)
            }
            Code::Block(ops) => {
                let after = self.body(work, ops, states, depth - 1)?;
                Ok(after)
            }
        }
    }

    #[cycle(following)]
    fn choose(
        &self,
        work: &mut u64,
        state: &State<'a>,
        depth: usize,
    ) -> Result<Vec<State<'a>>, Stop>
        ensures { IfOk result (λ after. Acts (program_of self.now.style.now) self.now.types.now
            (Called (targets.Builtin builtins.If)) (state_seen state.now ∷ []) (states_seen after.items)) }
    {
        if depth == 0 {
            return Err(Stop::Refused);
        }
        let branch = branch_of(self.alloc, state)?;
        let Branch {
            first,
            second,
            above,
            upto,
        } = branch;
        let mut after = self.code(work, first, above, depth - 1)?;
        let mut other = self.code(work, second, upto, depth - 1)?;
        after.append(&mut other)?;
        Ok(after)
    }

    #[cycle(following)]
    fn turn(
        &self,
        work: &mut u64,
        taken: &Loop<'a>,
        heads: &[State<'a>],
        depth: usize,
    ) -> Result<Turn<'a>, Stop>
        ensures { IfOk result (λ turn. TurnedSeen (program_of self.now.style.now) self.now.types.now
            taken.now.test taken.now.body heads.now turn.back.items turn.ends.items) }
    {
        if depth == 0 {
            return Err(Stop::Refused);
        }
        let heads = all_copied(self.alloc, heads)?;
        let mids = self.code(work, taken.test, heads, depth - 1)?;
        let parts = split(self.alloc, mids.as_slice())?;
        let Parts { goes, ends } = parts;
        let goes = merged(self.alloc, goes, self.apart)?;
        let back = self.code(work, taken.body, goes, depth - 1)?;
        Ok(Turn { back, ends })
    }

    #[cycle(following)]
    fn repeat(
        &self,
        work: &mut u64,
        state: &State<'a>,
        depth: usize,
    ) -> Result<Vec<State<'a>>, Stop>
        ensures { IfOk result (λ after. Acts (program_of self.now.style.now) self.now.types.now
            (Called (targets.Builtin builtins.While)) (state_seen state.now ∷ []) (states_seen after.items)) }
    {
        if depth == 0 {
            return Err(Stop::Refused);
        }
        let taken = loop_of(self.alloc, state)?;
        let mut heads = all_copied(self.alloc, taken.first.as_slice())?;
        'turns: for _ in 0..MOST_TURNS {
            let turn = self.turn(work, &taken, heads.as_slice(), depth - 1)?;
            let Turn { back, ends } = turn;
            if is_closed(taken.first.as_slice(), back.as_slice(), heads.as_slice()) {
                return Ok(ends);
            }
            widen_all(self.alloc, back.as_slice(), &mut heads, self.apart)?;
        }
        Err(Stop::Refused)
    }

    /// The states after the function `default.type`, if there is one.
    #[cycle(following)]
    fn untyped(
        &self,
        work: &mut u64,
        state: &State<'a>,
        depth: usize,
    ) -> Result<Vec<State<'a>>, Stop>
        ensures { IfOk result (λ after. FollowsTypes (program_of self.now.style.now) self.now.types.now []
            (state_seen state.now) (states_seen after.items)) }
    {
        if depth == 0 {
            return Err(Stop::Refused);
        }
        let before = only(self.alloc, state)?;
        match default_type_of(self.style) {
            Some(n) => {
                let ops = body_of(self.style, n)?;
                let after = self.body(work, ops, before, depth - 1)?;
                Ok(after)
            }
            None => Ok(before),
        }
    }

    #[cycle(following)]
    fn call_type(
        &self,
        work: &mut u64,
        state: &State<'a>,
        depth: usize,
    ) -> Result<Vec<State<'a>>, Stop>
        ensures { IfOk result (λ after. Acts (program_of self.now.style.now) self.now.types.now
            (Called (targets.Builtin builtins.CallType)) (state_seen state.now ∷ []) (states_seen after.items)) }
    {
        if depth == 0 {
            return Err(Stop::Refused);
        }
        if state.entry.is_none() {
            return Err(Stop::Refused);
        }
        let mut after = self.untyped(work, state, depth - 1)?;
        let types = self.types;
        'types: for n in types {
            let before = only(self.alloc, state)?;
            let ops = body_of(self.style, *n)?;
            let mut more = self.body(work, ops, before, depth - 1)?;
            after.append(&mut more)?;
        }
        Ok(after)
    }
}
