//! The functions of programs that a truss line names.
ghost use Rattle.std.specs.Prelude.{◌≡◌, ◌≤◌, ◌<◌, [], IfOk, IfSome};
ghost use Rattle.std.specs.List.{All, list_any};
ghost use Rattle.pr_num.specs.Limits.{code_limit};
ghost use Rattle.pr_scen.specs.Functions.{can_begin_function, is_called, labelled_place, function_at, function_named, with_functions};

use pr_asm::{Label, Program};
use pr_line::{Function, Functions};
use pr_num::layout::TEXT_BASE;
use pr_num::{Instruction, Name, NoMemory};
use std::alloc::Global;

/// Whether an instruction can be the first of a function.
#[tactic(auto, unfolding(crate::specs::Functions::can_begin_function))]
fn can_begin_function(instruction: &Instruction) -> bool
    ensures { result ≡ can_begin_function instruction.now }
{
    !matches!(*instruction, Instruction::Bpt | Instruction::Sys { .. })
}

/// Before which instruction the label of a name stands, counted from 0.
fn labelled_place(labels: &[Label], name: Name) -> Option<usize>
    requires { All (λ l. l.place ≤ code_limit) labels.now }
    ensures value { result ≡ labelled_place labels.now name }
    ensures small { IfSome result (λ place. place ≤ code_limit) }
{
    for label in labels {
        if label.name() == name.as_slice() {
            return Some(label.place());
        }
    }
    None
}

/// The function of a name that begins at a place of a program, if an instruction stands there that can be the first of
/// one.
#[tactic(auto, unfolding(crate::specs::Functions::function_at, crate::specs::Functions::function_with))]
fn function_at(program: &Program, name: Name, place: usize) -> Option<Function>
    requires { place ≤ code_limit }
    ensures { result ≡ function_at program.now name place }
{
    let instruction = program.code().get(place)?;
    if !can_begin_function(instruction) {
        return None;
    }
    Some(Function {
        name,
        at: TEXT_BASE + (Instruction::SIZE * place) as u64,
        code: instruction.encode(),
    })
}

/// The function that a label of a program names.
#[tactic(auto, unfolding(crate::specs::Functions::function_named))]
fn function_named(program: &Program, name: Name) -> Option<Function>
    ensures { result ≡ function_named program.now name }
{
    let place = labelled_place(program.labels(), name)?;
    function_at(program, name, place)
}

/// Whether one of these functions has a name.
fn has_function(functions: &[Function], name: Name) -> bool
    ensures { result ≡ list_any (is_called name) functions.now }
{
    for function in functions {
        if function.name.as_slice() == name.as_slice() {
            return true;
        }
    }
    false
}

/// The functions that labels of a program name, `None` exactly where one names none, or stands twice.
#[tactic(auto, unfolding(crate::specs::Functions::with_functions))]
pub fn functions_of(
    alloc: Global,
    program: &Program,
    names: &[Name],
) -> Result<Option<Functions>, NoMemory>
    ensures { IfOk result (λ functions. functions ≡ with_functions program.now [] names.now) }
{
    let mut functions = Functions::new(alloc);
    for name in names {
        if has_function(functions.as_slice(), *name) {
            return Ok(None);
        }
        let Some(function) = function_named(program, *name) else {
            return Ok(None);
        };
        functions.push(function)?;
    }
    Ok(Some(functions))
}
