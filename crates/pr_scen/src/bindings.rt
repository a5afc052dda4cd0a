//! The names of a script, and the handles that they stand for.
ghost use Rattle.std.specs.Prelude.{◌≡◌, [], OnOk, IfOk};
ghost use Rattle.pr_scen.specs.Bindings.{handle_of, bound, with_name, with_opened, all_opened, unbound};

use crate::ScriptLine;
use crate::name_indexes::Names;
use pr_model::NO_HANDLE;
use pr_num::{Name, NoMemory};
use std::alloc::Global;
use std::marker::Model;

/// The names that a script opens, each once, and the handle that each stands for. A name is found in logarithmic time.
#[derive(Drop)]
pub struct Bindings {
    names: Names,
    handles: Vec<u32>,
}

impl Model for Bindings {
    ghost use Rattle.std.specs.Prelude.{◌≡◌, length};
    ghost use Rattle.pr_scen.specs.Bindings as plain;

    ghost Value = { plain.Bindings };

    ghost view = { λ b. record { names = b.names; handles = b.handles.items } };

    ghost invariant = { λ b. length b.handles.items ≡ length b.names };
}

/// Adds a name that is not among them.
#[tactic(auto, unfolding(crate::specs::Bindings::with_name))]
fn put_name(names: &mut Names, name: Name) -> Result<(), NoMemory>
    ensures { OnOk result (names.new ≡ with_name names.old name) }
{
    if names.place_of(name).is_some() {
        return Ok(());
    }
    names.add(name)
}

/// Adds the name that a line opens, if it opens one.
#[tactic(auto, unfolding(crate::specs::Bindings::with_opened))]
fn put_opened(names: &mut Names, line: &ScriptLine) -> Result<(), NoMemory>
    ensures { OnOk result (names.new ≡ with_opened names.old line.now) }
{
    match line {
        ScriptLine::Open { name, .. } => put_name(names, *name),
        _ => Ok(()),
    }
}

/// The names that lines open.
#[tactic(auto, unfolding(crate::specs::Bindings::all_opened))]
fn opened(alloc: Global, lines: &[ScriptLine]) -> Result<Names, NoMemory>
    ensures { IfOk result (λ names. names ≡ all_opened [] lines.now) }
{
    let mut names = Names::new(alloc);
    for line in lines {
        put_opened(&mut names, line)?;
    }
    Ok(names)
}

impl Bindings {
    /// The names that a script opens, none of them bound to a handle yet.
    #[tactic(auto, unfolding(crate::specs::Bindings::unbound))]
    pub fn of(alloc: Global, lines: &[ScriptLine]) -> Result<Bindings, NoMemory>
        ensures { IfOk result (λ b. b ≡ unbound lines.now) }
    {
        let names = opened(alloc, lines)?;
        let handles = vec![in alloc; NO_HANDLE; names.len()]?;
        Ok(Bindings { names, handles })
    }

    /// The handle that a name stands for.
    #[tactic(auto, unfolding(crate::specs::Bindings::handle_of))]
    pub fn handle_of(&self, name: Name) -> u32
        ensures { result ≡ handle_of self.now name }
    {
        match self.names.place_of(name) {
            Some(place) => self.handles[place],
            None => NO_HANDLE,
        }
    }

    /// Binds a name to a handle.
    #[tactic(auto, unfolding(crate::specs::Bindings::bound))]
    pub fn bind(&mut self, name: Name, handle: u32)
        ensures { self.new ≡ bound self.old name handle }
    {
        if let Some(place) = self.names.place_of(name) {
            self.handles[place] = handle;
        }
    }
}
