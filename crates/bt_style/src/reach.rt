//! The names that a step can reach.
//!
//! The search keeps each name once, in the order in which it met them; those from `place` on are still to be followed.
//! The parts of a body that are still to be visited wait in a list, so neither long chains of calls nor deep braces use up
//! the program's stack.

ghost use Rattle.std.specs.Prelude.{◌≡◌, ◌+◌, ◌<◌, ◌++◌, ◌↔◌, ◌||◌, ◌⊎◌, IsTrue, IfOk, OnOk, MatchOption, Contains, [], length, map, filter_map, codes, slice_get};
ghost use Rattle.std.specs.List.{IsDistinct};
ghost use Rattle.bt_style.specs.Tree.{ops_body, element_of};
ghost use Rattle.bt_style.specs.Program.{program_of, definitions_of};
ghost use Rattle.bt_style.specs.Names.{place_in};
ghost use Rattle.bt_style.specs.Numbers.{as_field, as_entry_number, as_entry_text, as_global_number, as_global_text};
ghost use Rattle.bt_style.specs.Reach.{Reaches, noted, noted_all, element_names, body_names, function_body_names, maybe_function, default_type, leads_to, target_eq, is_among, keeps_held, keeps_preamble, keeps_kind};
ghost use Rattle.bt_style.specs.inner.Reach.{waiting_names, waiting_size, element_size, body_size};

use crate::builtin::Builtin;
use crate::names::Names;
use crate::numbers::numbers_of;
use crate::style::{Function, Op, Style, Target};
use bt_text::Sequence;
use std::alloc::{AllocError, Global};
use std::collections::HashSet;
use std::marker::Model;

/// The names that a step can reach from a name.
#[derive(Debug, Drop)]
pub struct Reach {
    /// Each of them once.
    pub targets: Sequence<Target>,
    /// The numbers of the fields among them.
    pub fields: Sequence<usize>,
    /// Those of the integer variables of entries.
    pub entry_numbers: Sequence<usize>,
    /// Those of the string variables of entries.
    pub entry_texts: Sequence<usize>,
    /// Those of the global integer variables.
    pub global_numbers: Sequence<usize>,
    /// Those of the global string variables.
    pub global_texts: Sequence<usize>,
    /// Whether the step can read or write the output buffer.
    pub held: bool,
    /// Whether the step can read the preamble.
    pub preamble: bool,
    /// Whether the step can read the entry's type.
    pub kind: bool,
    ghost fields_among: { fields ≡ filter_map as_field targets },
    ghost entry_numbers_among: { entry_numbers ≡ filter_map as_entry_number targets },
    ghost entry_texts_among: { entry_texts ≡ filter_map as_entry_text targets },
    ghost global_numbers_among: { global_numbers ≡ filter_map as_global_number targets },
    ghost global_texts_among: { global_texts ≡ filter_map as_global_text targets },
    ghost held_named: { held ≡ keeps_held (is_among targets) },
    ghost preamble_named: { preamble ≡ keeps_preamble (is_among targets) },
    ghost kind_named: { kind ≡ keeps_kind (is_among targets) },
}

#[tactic(auto, using(crate::proofs::ReachLemmas::waiting_names_push, crate::proofs::ReachLemmas::waiting_size_push))]
fn put_off<'a>(waiting: &mut Vec<&'a [Op]>, ops: &'a [Op]) -> Result<(), AllocError>
    ensures names { OnOk result (waiting_names waiting.new.items
        ≡ body_names (ops_body ops.now) ++ waiting_names waiting.old.items) }
    ensures size { OnOk result (waiting_size waiting.new.items
        ≡ body_size (ops_body ops.now) + waiting_size waiting.old.items) }
{
    Ok(waiting.push(ops)?)
}

#[tactic(auto, using(crate::proofs::ReachLemmas::waiting_names_push, crate::proofs::ReachLemmas::waiting_size_push))]
fn take_up<'a>(waiting: &mut Vec<&'a [Op]>) -> Option<&'a [Op]>
    ensures names { MatchOption result (waiting_names waiting.old.items ≡ [])
        (λ ops. waiting_names waiting.old.items ≡ body_names (ops_body ops.now) ++ waiting_names waiting.new.items) }
    ensures size { MatchOption result (waiting_size waiting.new.items ≡ 0)
        (λ ops. waiting_size waiting.old.items ≡ body_size (ops_body ops.now) + waiting_size waiting.new.items) }
{
    waiting.pop()
}

/// The body of the function of a number; none if there is no such function.
fn function_body(style: &Style, place: usize) -> &[Op]
    ensures { body_names (ops_body result.now) ≡ function_body_names (program_of style.now) place }
{
    match style.functions.get(place) {
        Some(function) => &function.body,
        None => &[],
    }
}

fn default_type(functions: &[Function]) -> Option<usize>
    ensures { result ≡ place_in (map (λ f. f.name) (definitions_of functions.now)) (codes "default.type") }
{
    for (place, function) in functions.iter().enumerate() {
        if function.name.as_slice() == b"default.type".as_slice() {
            return Some(place);
        }
    }
    None
}

/// The names that were found, each once, in the order in which the search met them. Contracts see their list.
#[derive(Drop)]
struct Found {
    names: Vec<Target>,
    /// The same names.
    seen: HashSet<Target>,
}

impl Model for Found {
    ghost use Rattle.std.specs.Prelude.{List};
    ghost use Rattle.bt_style.specs.declared.style.Target.{Target};
    ghost use Rattle.bt_style.specs.inner.Reach.{Knows};

    ghost Value = { List Target };

    ghost view = { λ found. found.names.items };

    ghost invariant = { λ found. Knows found.seen found.names.items };
}

impl Found {
    /// Appends a target, unless it is among the names. Room is made first, so that out of memory leaves `names` and `seen` in
    /// step.
    fn note(&mut self, target: Target) -> Result<(), AllocError>
        ensures { OnOk result (self.new ≡ noted self.old target) }
    {
        self.names.reserve(1)?;
        if self.seen.insert(target)? {
            self.names.push_reserved(target);
        }
        Ok(())
    }

    /// Notes the name in an element, and leaves what is in its braces for later.
    fn note_element<'a>(
        &mut self,
        waiting: &mut Vec<&'a [Op]>,
        element: &'a Op,
    ) -> Result<(), AllocError>
        ensures same { OnOk result (noted_all self.new (waiting_names waiting.new.items)
            ≡ noted_all self.old (element_names (element_of element.now) ++ waiting_names waiting.old.items)) }
        ensures shorter { OnOk result
            (waiting_size waiting.new.items < element_size (element_of element.now) + waiting_size waiting.old.items) }
    {
        match element {
            Op::Number(_) | Op::Text(_) => Ok(()),
            Op::Quote(target) | Op::Call(target) => self.note(*target),
            Op::Block(inner) => put_off(waiting, inner.as_slice()),
        }
    }

    /// Goes over the first element of a part of a body, and leaves what is in it and after it for later.
    fn go_over<'a>(&mut self, waiting: &mut Vec<&'a [Op]>, ops: &'a [Op]) -> Result<(), AllocError>
        ensures same { OnOk result (noted_all self.new (waiting_names waiting.new.items)
            ≡ noted_all self.old (body_names (ops_body ops.now) ++ waiting_names waiting.old.items)) }
        ensures shorter { OnOk result
            (waiting_size waiting.new.items < body_size (ops_body ops.now) + waiting_size waiting.old.items) }
    {
        let [first, rest @ ..] = ops else {
            return Ok(());
        };
        put_off(waiting, rest)?;
        self.note_element(waiting, first)
    }

    fn note_body(&mut self, alloc: Global, body: &[Op]) -> Result<(), AllocError>
        ensures { OnOk result (self.new ≡ noted_all self.old (body_names (ops_body body.now))) }
    {
        let mut waiting = Vec::new(alloc);
        put_off(&mut waiting, body)?;
        'parts: while let Some(ops) = take_up(&mut waiting) {
            self.go_over(&mut waiting, ops)?;
        }
        Ok(())
    }

    fn note_function(&mut self, place: Option<usize>) -> Result<(), AllocError>
        ensures { OnOk result (self.new ≡ noted_all self.old (maybe_function place)) }
    {
        match place {
            Some(place) => self.note(Target::Function(place)),
            None => Ok(()),
        }
    }

    /// Notes the names that `call.type$` leads to.
    #[tactic(auto, using(crate::proofs::ReachLemmas::noted_all_append))]
    fn note_types(&mut self, style: &Style, type_function: Option<usize>) -> Result<(), AllocError>
        ensures { OnOk result (self.new
            ≡ noted_all self.old (maybe_function type_function ++ maybe_function (default_type (program_of style.now)))) }
    {
        self.note_function(type_function)?;
        self.note_function(default_type(&style.functions))
    }

    /// Notes the names that are reached at once from a name.
    fn note_next(
        &mut self,
        alloc: Global,
        style: &Style,
        type_function: Option<usize>,
        target: Target,
    ) -> Result<(), AllocError>
        ensures { OnOk result (self.new
            ≡ noted_all self.old (leads_to (program_of style.now) type_function target)) }
    {
        match target {
            Target::Function(place) => self.note_body(alloc, function_body(style, place)),
            Target::Builtin(Builtin::CallType) => self.note_types(style, type_function),
            _ => Ok(()),
        }
    }

    fn has(&self, builtin: Builtin) -> bool
        ensures { result ≡ is_among self.now (Target.Builtin builtin) }
    {
        self.seen.contains(&Target::Builtin(builtin))
    }

    fn at(&self, place: usize) -> Option<Target>
        ensures { result ≡ slice_get self.now place }
    {
        self.names.get(place).copied()
    }

    fn len(&self) -> usize
        ensures { result ≡ length self.now }
    {
        self.names.len()
    }

    fn into_targets(self) -> Sequence<Target>
        ensures { result ≡ self }
    {
        Sequence::from_vec(self.names)
    }

    fn into_reach(self, alloc: Global) -> Result<Reach, AllocError>
        ensures { IfOk result (λ reach. reach.targets ≡ self) }
    {
        let held = self.has(Builtin::Write) || self.has(Builtin::Newline);
        let preamble = self.has(Builtin::Preamble);
        let kind = self.has(Builtin::Type) || self.has(Builtin::CallType);
        let targets = self.into_targets();
        let names = targets.as_slice();
        Ok(Reach {
            fields: Sequence::from_vec(numbers_of(alloc, names, Names::Fields)?),
            entry_numbers: Sequence::from_vec(numbers_of(alloc, names, Names::EntryNumbers)?),
            entry_texts: Sequence::from_vec(numbers_of(alloc, names, Names::EntryTexts)?),
            global_numbers: Sequence::from_vec(numbers_of(alloc, names, Names::GlobalNumbers)?),
            global_texts: Sequence::from_vec(numbers_of(alloc, names, Names::GlobalTexts)?),
            targets,
            held,
            preamble,
            kind,
        })
    }
}

impl Style {
    fn find_all(
        &self,
        alloc: Global,
        target: Target,
        type_function: Option<usize>,
    ) -> Result<Found, AllocError>
        ensures once { IfOk result (λ found. IsDistinct target_eq found) }
        ensures all { IfOk result (λ found. (t : Target) →
            Contains found t ↔ Reaches (program_of self.now) type_function target t) }
    {
        let mut found = Found {
            names: Vec::new(alloc),
            seen: HashSet::new(alloc),
        };
        found.note(target)?;
        let mut place = 0usize;
        'targets: while let Some(here) = found.at(place) {
            // The length fits, and so does the place after an element.
            let _len = found.len();
            found.note_next(alloc, self, type_function, here)?;
            place += 1;
        }
        Ok(found)
    }

    /// What is reached from a name: the name itself, each name that is called or quoted in the bodies of its functions,
    /// inner braces too, and, if `call.type$` is reached, the function of the entry's type (`type_function`, if it has
    /// one) and `default.type`. A number without a function reaches nothing more.
    pub fn reach(
        &self,
        alloc: Global,
        target: Target,
        type_function: Option<usize>,
    ) -> Result<Reach, AllocError>
        ensures targets { IfOk result
            (λ reach. (t : Target) → Contains reach.targets t ↔ Reaches (program_of self.now) type_function target t) }
        ensures once { IfOk result (λ reach. IsDistinct target_eq reach.targets) }
        ensures held { IfOk result (λ reach. IsTrue reach.held
            ↔ (Contains reach.targets (Target.Builtin Builtin.Write) ⊎
            Contains reach.targets (Target.Builtin Builtin.Newline))) }
        ensures preamble { IfOk result
            (λ reach. IsTrue reach.preamble ↔ Contains reach.targets (Target.Builtin Builtin.Preamble)) }
        ensures kind { IfOk result (λ reach. IsTrue reach.kind
            ↔ (Contains reach.targets (Target.Builtin Builtin.Type) ⊎
            Contains reach.targets (Target.Builtin Builtin.CallType))) }
    {
        self.find_all(alloc, target, type_function)?
            .into_reach(alloc)
    }
}
