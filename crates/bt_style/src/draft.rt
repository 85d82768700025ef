//! A style while it is read, with its names in hashed tables.
//!
//! The invariant says that the tables give what the definition finds by going through the lists. To keep them so, each
//! declaration first makes room in the table, then pushes onto the list, and then puts the name into the table, which
//! can't fail: out of memory, both stay as they were.

ghost use Rattle.std.specs.Prelude.{◌≡◌, None, IfOk, OnOk, OnErr, length};
ghost use Rattle.bt_style.specs.Program.{program_of};
ghost use Rattle.bt_style.specs.Tree.{ops_body};
ghost use Rattle.bt_style.specs.Names.{target_named, macro_named, is_macro};
ghost use Rattle.bt_style.specs.Draft.{with_name, with_command};
ghost use Rattle.bt_style.specs.inner.Cases.{bare, with_macro, with_function};
ghost use Rattle.bt_style.specs.inner.Draft.{next_target};

use crate::names::{Names, builtins};
use crate::style::{Action, Command, Function, Macro, Op, Style, Target};
use bt_text::{ByName, Bytes, Sequence};
use std::alloc::{AllocError, Global};
use std::marker::Model;

/// A style while it is read. Contracts see the style.
#[derive(Drop)]
pub struct Draft {
    style: Style,
    targets: ByName<Target>,
    macros: ByName<usize>,
}

impl Model for Draft {
    ghost use Rattle.bt_style.specs.declared.style.Style.{Style};
    ghost use Rattle.bt_style.specs.contracts.style.Op as op;
    ghost use Rattle.std.specs.Coded.{codes};

    ghost Value = { Style };

    ghost coded = { Prim.hlevel (codes, op.the_row.coded) };

    ghost use Rattle.bt_style.specs.Program.{program_of};
    ghost use Rattle.bt_style.specs.Names.{target_named, macro_named};
    ghost use Rattle.bt_style.specs.inner.Names.{Holds};

    ghost view = { λ d. d.style };

    ghost invariant = { λ d. Holds d.targets (target_named (program_of d.style)) ×
        Holds d.macros (macro_named (program_of d.style)) };
}

fn bare_style(alloc: Global) -> Style
    ensures { program_of result ≡ bare }
{
    Style {
        fields: Sequence::new(alloc),
        entry_numbers: Sequence::new(alloc),
        entry_texts: Sequence::new(alloc),
        global_numbers: Sequence::new(alloc),
        global_texts: Sequence::new(alloc),
        macros: Sequence::new(alloc),
        functions: Vec::new(alloc),
        commands: Sequence::new(alloc),
    }
}

fn next_target(style: &Style, names: Names) -> Target
    ensures { result ≡ next_target names (program_of style.now) }
{
    match names {
        Names::Fields => Target::Field(style.fields.len()),
        Names::EntryNumbers => Target::EntryNumber(style.entry_numbers.len()),
        Names::EntryTexts => Target::EntryText(style.entry_texts.len()),
        Names::GlobalNumbers => Target::GlobalNumber(style.global_numbers.len()),
        Names::GlobalTexts => Target::GlobalText(style.global_texts.len()),
    }
}

fn next_function(style: &Style) -> Target
    ensures { result ≡ Target.Function (length (program_of style.now).functions) }
{
    Target::Function(style.functions.len())
}

fn push_name(style: &mut Style, names: Names, name: Bytes) -> Result<(), AllocError>
    ensures ok { OnOk result (program_of style.new ≡ with_name names name (program_of style.old)) }
    ensures err { OnErr result (program_of style.new ≡ program_of style.old) }
{
    match names {
        Names::Fields => style.fields.push(name)?,
        Names::EntryNumbers => style.entry_numbers.push(name)?,
        Names::EntryTexts => style.entry_texts.push(name)?,
        Names::GlobalNumbers => style.global_numbers.push(name)?,
        Names::GlobalTexts => style.global_texts.push(name)?,
    }
    Ok(())
}

fn push_macro(style: &mut Style, name: Bytes, text: Bytes) -> Result<(), AllocError>
    ensures ok { OnOk result (program_of style.new ≡ with_macro name text (program_of style.old)) }
    ensures err { OnErr result (program_of style.new ≡ program_of style.old) }
{
    Ok(style.macros.push(Macro { name, text })?)
}

fn push_function(style: &mut Style, name: Bytes, body: Vec<Op>) -> Result<(), AllocError>
    ensures ok { OnOk result (program_of style.new ≡ with_function name (ops_body body.items) (program_of style.old)) }
    ensures err { OnErr result (program_of style.new ≡ program_of style.old) }
{
    Ok(style.functions.push(Function { name, body })?)
}

impl Draft {
    /// A style in which nothing is declared.
    pub fn bare(alloc: Global) -> Result<Draft, AllocError>
        ensures { IfOk result (λ draft. program_of draft ≡ bare) }
    {
        Ok(Draft {
            style: bare_style(alloc),
            targets: builtins(alloc)?,
            macros: ByName::new(alloc),
        })
    }

    /// What a name in small letters stands for.
    pub fn meaning(&self, name: &Vec<u8>) -> Option<Target>
        ensures { result ≡ target_named (program_of self.now) name.now.items }
    {
        self.targets.get_small(name.as_slice()).copied()
    }

    /// Whether there is a macro of a name in small letters.
    pub fn has_macro(&self, name: &Vec<u8>) -> bool
        ensures { result ≡ is_macro (program_of self.now) name.now.items }
    {
        self.macros.get_small(name.as_slice()).is_some()
    }

    /// How many functions there are.
    pub fn function_count(&self) -> usize
        ensures { result ≡ length (program_of self.now).functions }
    {
        self.style.functions.len()
    }

    /// How many macros there are.
    pub fn macro_count(&self) -> usize
        ensures { result ≡ length (program_of self.now).macros }
    {
        self.style.macros.len()
    }

    /// Declares a name.
    pub fn declare(&mut self, alloc: Global, names: Names, name: Bytes) -> Result<(), AllocError>
        requires { target_named (program_of self.old) name ≡ None }
        ensures { OnOk result (program_of self.new ≡ with_name names name (program_of self.old)) }
    {
        let key = Vec::from_slice(alloc, name.as_slice())?;
        let target = next_target(&self.style, names);
        self.targets.make_room()?;
        push_name(&mut self.style, names, name)?;
        self.targets.put(key, target);
        Ok(())
    }

    /// Defines a macro.
    pub fn add_macro(&mut self, alloc: Global, name: Bytes, text: Bytes) -> Result<(), AllocError>
        requires { macro_named (program_of self.old) name ≡ None }
        ensures { OnOk result (program_of self.new ≡ with_macro name text (program_of self.old)) }
    {
        let key = Vec::from_slice(alloc, name.as_slice())?;
        let place = self.style.macros.len();
        self.macros.make_room()?;
        push_macro(&mut self.style, name, text)?;
        self.macros.put(key, place);
        Ok(())
    }

    /// Defines a function.
    pub fn add_function(
        &mut self,
        alloc: Global,
        name: Bytes,
        body: Vec<Op>,
    ) -> Result<(), AllocError>
        requires { target_named (program_of self.old) name ≡ None }
        ensures { OnOk result (program_of self.new ≡ with_function name (ops_body body.items) (program_of self.old)) }
    {
        let key = Vec::from_slice(alloc, name.as_slice())?;
        let target = next_function(&self.style);
        self.targets.make_room()?;
        push_function(&mut self.style, name, body)?;
        self.targets.put(key, target);
        Ok(())
    }

    /// Adds a command.
    #[tactic(auto, unfolding(crate::specs::Names::target_named, crate::specs::Names::macro_named))]
    pub fn add_command(&mut self, action: Action, line: usize) -> Result<(), AllocError>
        ensures { OnOk result (program_of self.new ≡ with_command action line (program_of self.old)) }
    {
        Ok(self.style.commands.push(Command { action, line })?)
    }

    /// The style.
    pub fn into_style(self) -> Style
        ensures { result ≡ self }
    {
        self.style
    }
}
