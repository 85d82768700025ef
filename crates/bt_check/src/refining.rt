//! What follows for a path from the outcome of a test.

use crate::facts::{Assumed, Facts};
use crate::values::{Choice, Made, Node, Value, Values, ZERO, node_kinds};
use bt_known::Bounds;
use bt_style::Builtin;
use std::alloc::AllocError;

/// How deep one conclusion may lead to another. Beyond it nothing more is concluded.
const DEPTH: usize = 400;

fn signed(is_positive: bool) -> Bounds {
    if is_positive {
        Bounds::at_least(1)
    } else {
        Bounds::at_most(0)
    }
}

fn assumption(value: Value, truth: bool) -> Assumed {
    Assumed { value, truth }
}

fn narrow(facts: &mut Facts, value: Value, bounds: Bounds) -> Result<(), AllocError> {
    let mut known = facts.of(value);
    known.bounds = known.bounds.and(bounds);
    facts.put(value, known)
}

impl Values {
    /// Counts a step of the analysis, and says whether there is work left.
    pub fn spend(&mut self) -> bool {
        self.work = self.work.saturating_sub(1);
        self.work > 0
    }

    /// The facts of the path on which the integer is above 0, or isn't. None if there is no such path.
    pub fn refine(
        &mut self,
        facts: &Facts,
        value: Value,
        truth: bool,
    ) -> Result<Option<Facts>, AllocError> {
        self.refine_within(facts, assumption(value, truth), DEPTH)
    }

    #[cycle(refining)]
    fn refine_within(
        &mut self,
        facts: &Facts,
        assumed: Assumed,
        depth: usize,
    ) -> Result<Option<Facts>, AllocError> {
        if depth == 0 || !self.spend() {
            return Ok(Some(facts.copied(self.alloc)?));
        }
        match self.decide(facts, assumed.value) {
            Some(known) => {
                if known == assumed.truth {
                    Ok(Some(facts.copied(self.alloc)?))
                } else {
                    Ok(None)
                }
            }
            None => match self.node(assumed.value) {
                Node::Choice(choice) => self.refine_choice(facts, assumed, choice, depth - 1),
                node => self.refine_plain(facts, assumed, node, depth - 1),
            },
        }
    }

    /// Whether a choice can be above 0 (or not) by its first side, and by its second.
    fn sides(&self, facts: &Facts, choice: Choice, truth: bool) -> (bool, bool) {
        let wrong = Some(!truth);
        let test = self.decide(facts, choice.test);
        (
            test != Some(false) && self.decide(facts, choice.then) != wrong,
            test != Some(true) && self.decide(facts, choice.other) != wrong,
        )
    }

    /// For a value that isn't a choice: what follows from it alone, and then from what was assumed.
    #[cycle(refining)]
    fn refine_plain(
        &mut self,
        facts: &Facts,
        learnt: Assumed,
        node: Node,
        depth: usize,
    ) -> Result<Option<Facts>, AllocError> {
        if depth == 0 {
            return Ok(Some(facts.copied(self.alloc)?));
        }
        let mut now = facts.copied(self.alloc)?;
        now.put_truth(learnt.value, learnt.truth)?;
        self.learn(&mut now, learnt.value, node, learnt.truth)?;
        for assumed in &facts.assumed {
            match self.again(now, *assumed, depth - 1)? {
                Some(next) => now = next,
                None => return Ok(None),
            }
        }
        Ok(Some(now))
    }

    #[cycle(refining)]
    fn refine_both(
        &mut self,
        facts: &Facts,
        test: Assumed,
        side: Assumed,
        depth: usize,
    ) -> Result<Option<Facts>, AllocError> {
        if depth == 0 {
            return Ok(Some(facts.copied(self.alloc)?));
        }
        match self.refine_within(facts, test, depth - 1)? {
            Some(then) => self.refine_within(&then, side, depth - 1),
            None => Ok(None),
        }
    }

    #[cycle(refining)]
    fn refine_choice(
        &mut self,
        facts: &Facts,
        assumed: Assumed,
        choice: Choice,
        depth: usize,
    ) -> Result<Option<Facts>, AllocError> {
        if depth == 0 {
            return Ok(Some(facts.copied(self.alloc)?));
        }
        let Assumed { value, truth } = assumed;
        let (can_then, can_other) = self.sides(facts, choice, truth);
        let then = if can_then {
            let (test, side) = (
                assumption(choice.test, true),
                assumption(choice.then, truth),
            );
            self.refine_both(facts, test, side, depth - 1)?
        } else {
            None
        };
        let other = if can_other {
            let (test, side) = (
                assumption(choice.test, false),
                assumption(choice.other, truth),
            );
            self.refine_both(facts, test, side, depth - 1)?
        } else {
            None
        };
        match (then, other) {
            (Some(then), Some(other)) => {
                let mut both = then.joined(&other, self.alloc)?;
                both.put_truth(value, truth)?;
                both.assume(value, truth)?;
                Ok(Some(both))
            }
            (Some(then), None) => Ok(Some(then)),
            (None, other) => Ok(other),
        }
    }

    /// Concludes what can be concluded now from an assumption about a choice.
    #[cycle(refining)]
    fn again(
        &mut self,
        mut facts: Facts,
        assumed: Assumed,
        depth: usize,
    ) -> Result<Option<Facts>, AllocError> {
        if depth == 0 {
            return Ok(Some(facts));
        }
        let Node::Choice(choice) = self.node(assumed.value) else {
            return Ok(Some(facts));
        };
        let (can_then, can_other) = self.sides(&facts, choice, assumed.truth);
        if can_then && can_other {
            return Ok(Some(facts));
        }
        // It isn't assumed meanwhile: else each fact that follows would begin the same conclusions again.
        facts.forget(assumed);
        let Some(mut next) = self.refine_choice(&facts, assumed, choice, depth - 1)? else {
            return Ok(None);
        };
        next.assume(assumed.value, assumed.truth)?;
        Ok(Some(next))
    }

    /// What follows from one fact: what is missing is empty, a string equals one constant only, and bounds.
    fn learn(
        &mut self,
        facts: &mut Facts,
        value: Value,
        node: Node,
        truth: bool,
    ) -> Result<(), AllocError> {
        match node {
            Node::Made(made) => self.learn_made(facts, value, made, truth),
            Node::Held { .. } | Node::Unknown(_) => { narrow(facts, value, signed(truth)) }
            _ => Ok(()),
        }
    }

    fn learn_made(
        &mut self,
        facts: &mut Facts,
        value: Value,
        made: Made,
        truth: bool,
    ) -> Result<(), AllocError> {
        match made.by {
            Builtin::Empty if !truth => {
                let missing = self.plain(Builtin::Missing, made.first, ZERO, ZERO)?;
                facts.put_truth(missing, false)
            }
            Builtin::Missing if truth => {
                let empty = self.plain(Builtin::Empty, made.first, ZERO, ZERO)?;
                facts.put_truth(empty, true)
            }
            Builtin::Equals if truth => self.learn_equality(facts, made),
            Builtin::Greater => self.learn_order(facts, made.first, made.second, truth),
            Builtin::Less => self.learn_order(facts, made.second, made.first, truth),
            Builtin::Plus | Builtin::Minus => { narrow(facts, value, signed(truth)) }
            _ => Ok(()),
        }
    }

    fn learn_equality(&mut self, facts: &mut Facts, made: Made) -> Result<(), AllocError> {
        let node = self.node(made.second);
        if let Node::Text(_) = node {
            let mut known = facts.of(made.first);
            known.only = Some(made.second);
            return facts.put(made.first, known);
        }
        if node_kinds(node).integer && node_kinds(self.node(made.first)).integer {
            let first = self.bounds(facts, made.first);
            let second = self.bounds(facts, made.second);
            narrow(facts, made.first, second)?;
            narrow(facts, made.second, first)?;
        }
        Ok(())
    }

    /// `upper` is greater than `lower`, or isn't.
    fn learn_order(
        &mut self,
        facts: &mut Facts,
        upper: Value,
        lower: Value,
        truth: bool,
    ) -> Result<(), AllocError> {
        let above = self.bounds(facts, upper);
        let below = self.bounds(facts, lower);
        if truth {
            narrow(facts, upper, Bounds::at_least(below.low.saturating_add(1)))?;
            narrow(facts, lower, Bounds::at_most(above.high.saturating_sub(1)))
        } else {
            narrow(facts, upper, Bounds::at_most(below.high))?;
            narrow(facts, lower, Bounds::at_least(above.low))
        }
    }
}
