//! One step of the machine under a choice.

ghost use Rattle.std.specs.Prelude.{◌≡◌, IfOk, OnErr, Contains};
ghost use Rattle.gh_ast.specs.Plain as plain;
ghost use Rattle.gh_ast.specs.Plain.{program_of, statements_view, cond_of, block_of, Procedure as PlainProcedure};
ghost use Rattle.gh_assert.specs.Stores.{listed_names};
ghost use Rattle.gh_machine.specs.Fits.{Awaits};
ghost use Rattle.gh_machine.specs.Configs.{config_of, IsNextOf, IsMadeFor, AllListVariables, FindsDeclared};
ghost use Rattle.gh_machine.specs.Configs.{WantsStarts};
ghost use Rattle.gh_machine.specs.Turns.{ComesFirst, CallComes, IfComes, WhileComes, ReturnComes, Calls, AlwaysNext};
ghost use Rattle.gh_machine.specs.Turns.{IsPopped, IsMadeForSome};

use crate::config::Config;
use crate::rest::Rest;
use crate::stores::{assign, assign_from, content, count_starts, enter, is_free};
use gh_assert::values::{expr_value, outcome, value_of, values_of};
use gh_ast::typed::Typed;
use gh_ast::{Block, Cond, Expr, Occ, Procedure, Program, Stmt};
use gh_base::name::Name;
use std::alloc::{AllocError, Global};
use std::mem;

/// What a step may choose: the location and the content of a new cell, and the values with which a
/// called procedure's results and locals begin, in their order.
#[derive(Debug, Drop)]
pub struct Choice {
    pub location: u32,
    pub content: u32,
    pub starts: Vec<u32>,
}

/// What a step answers.
#[derive(Clone, Copy, Debug, PartialEq, Eq)]
pub enum Next {
    /// One step was made.
    Moved,
    /// Nothing was left to do, or the last return set the results.
    Ended,
    /// A place that isn't allocated would be read, written or freed.
    Fault,
    /// The choice doesn't fit the next statement.
    NotAChoice,
}

fn set_variable(config: &mut Config, target: &Occ, value: &Expr) -> Next
    requires comes { ComesFirst (plain.set target.now value.now) config.old }
    requires listed { Contains (listed_names config.old.top.store) target.now.name }
    requires lists { AllListVariables config.old }
    ensures next { AlwaysNext result (config_of config.old) (config_of config.new) }
    ensures lists { AllListVariables config.new }
{
    let Some(value) = expr_value(&config.top.store, &config.heap, value) else {
        return Next::Fault;
    };
    config.top.store.set(&target.name, value);
    config.top.rest.advance();
    Next::Moved
}

fn make_cell(config: &mut Config, target: &Occ, choice: &Choice) -> Result<Next, AllocError>
    requires comes { ComesFirst (plain.new target.now) config.old }
    requires listed { Contains (listed_names config.old.top.store) target.now.name }
    requires lists { AllListVariables config.old }
    ensures next { IfOk result (λ next. (P : plain.Program) → IsNextOf P choice.now next config.old config.new) }
    ensures err { OnErr result (config_of config.new ≡ config_of config.old) }
    ensures lists { AllListVariables config.new }
{
    if !is_free(&config.heap, choice.location) {
        return Ok(Next::NotAChoice);
    }
    config.heap.put(choice.location, choice.content)?;
    config.top.store.set(&target.name, choice.location);
    config.top.rest.advance();
    Ok(Next::Moved)
}

fn write_cell(config: &mut Config, at: &Occ, value: &Expr) -> Result<Next, AllocError>
    requires comes { ComesFirst (plain.write at.now value.now) config.old }
    requires lists { AllListVariables config.old }
    ensures next { IfOk result (λ next. AlwaysNext next (config_of config.old) (config_of config.new)) }
    ensures err { OnErr result (config_of config.new ≡ config_of config.old) }
    ensures lists { AllListVariables config.new }
{
    let Some(value) = expr_value(&config.top.store, &config.heap, value) else {
        return Ok(Next::Fault);
    };
    let place = value_of(&config.top.store, at);
    if content(&config.heap, place).is_none() {
        return Ok(Next::Fault);
    }
    config.heap.put(place, value)?;
    config.top.rest.advance();
    Ok(Next::Moved)
}

fn free_cell(config: &mut Config, at: &Occ) -> Next
    requires comes { ComesFirst (plain.free at.now) config.old }
    requires lists { AllListVariables config.old }
    ensures next { AlwaysNext result (config_of config.old) (config_of config.new) }
    ensures lists { AllListVariables config.new }
{
    let place = value_of(&config.top.store, at);
    if config.heap.get(place).is_none() {
        return Next::Fault;
    }
    let _ = config.heap.take(place);
    config.top.rest.advance();
    Next::Moved
}

fn branch<'p>(
    config: &mut Config<'p>,
    test: &Cond,
    taken: &'p Block,
    otherwise: &'p Block,
) -> Result<Next, AllocError>
    requires comes { IfComes (cond_of test.now) (block_of taken.now) (block_of otherwise.now) config.old }
    requires lists { AllListVariables config.old }
    ensures next { IfOk result (λ next. AlwaysNext next (config_of config.old) (config_of config.new)) }
    ensures err { OnErr result (config_of config.new ≡ config_of config.old) }
    ensures lists { AllListVariables config.new }
{
    match outcome(&config.top.store, &config.heap, test) {
        None => return Ok(Next::Fault),
        Some(true) => config.top.rest.replace(taken.statements.as_slice())?,
        Some(false) => config.top.rest.replace(otherwise.statements.as_slice())?,
    }
    Ok(Next::Moved)
}

fn turn<'p>(config: &mut Config<'p>, test: &Cond, body: &'p Block) -> Result<Next, AllocError>
    requires comes { WhileComes (cond_of test.now) (block_of body.now) config.old }
    requires lists { AllListVariables config.old }
    ensures next { IfOk result (λ next. AlwaysNext next (config_of config.old) (config_of config.new)) }
    ensures err { OnErr result (config_of config.new ≡ config_of config.old) }
    ensures lists { AllListVariables config.new }
{
    match outcome(&config.top.store, &config.heap, test) {
        None => return Ok(Next::Fault),
        Some(true) => config.top.rest.push(body.statements.as_slice())?,
        Some(false) => config.top.rest.advance(),
    }
    Ok(Next::Moved)
}

/// The first procedure of a name.
fn find<'p>(program: &'p Program, name: &Name) -> Option<&'p Procedure>
    ensures { FindsDeclared (program_of program.now) name.now result }
{
    for procedure in &program.procedures {
        if procedure.name.name.bytes() == name.bytes() {
            return Some(procedure);
        }
    }
    None
}

fn call<'p>(
    alloc: Global,
    typed: &'p Typed,
    config: &mut Config<'p>,
    callee: &Occ,
    arguments: &[Expr],
    choice: &Choice,
) -> Result<Next, AllocError>
    requires comes { CallComes callee.now arguments.now config.old }
    requires made { IsMadeFor (program_of typed.now) config.old }
    ensures next { IfOk result (λ next. IsNextOf (program_of typed.now) choice.now next config.old config.new) }
    ensures err { OnErr result (config_of config.new ≡ config_of config.old) }
    ensures lists { AllListVariables config.new }
{
    let Some(values) = values_of(alloc, &config.top.store, &config.heap, arguments)? else {
        return Ok(Next::Fault);
    };
    let Some(procedure) = find(typed.program(), &callee.name) else {
        return Ok(Next::NotAChoice);
    };
    if choice.starts.len() != count_starts(procedure) {
        return Ok(Next::NotAChoice);
    }
    let started = enter(
        alloc,
        procedure,
        values.as_slice(),
        choice.starts.as_slice(),
    )?;
    config.below.reserve(1)?;
    let caller = mem::replace(&mut config.top, started);
    config.below.push_reserved(caller);
    Ok(Next::Moved)
}

/// The targets of the call that comes next.
fn targets_of<'p>(rest: &Rest<'p>) -> &'p [Occ]
    requires waits { (q : PlainProcedure) × Awaits (statements_view rest.now) q }
    ensures { Calls result.now rest.now }
{
    match rest.first() {
        Some(Stmt::Call { targets, .. }) => targets.as_slice(),
        _ => &[],
    }
}

fn pop(config: &mut Config) -> Next
    requires made { IsMadeForSome config.old }
    ensures popped { IsPopped result (config_of config.old) (config_of config.new) }
    ensures lists { AllListVariables config.new }
{
    let Some(mut caller) = config.below.pop() else {
        return Next::Ended;
    };
    let targets = targets_of(&caller.rest);
    let results = config.top.procedure.results.as_slice();
    assign_from(&mut caller.store, targets, &config.top.store, results);
    caller.rest.advance();
    config.top = caller;
    Next::Moved
}

fn give(alloc: Global, config: &mut Config, values: &[Expr]) -> Result<Next, AllocError>
    requires comes { ReturnComes values.now config.old }
    requires made { IsMadeForSome config.old }
    ensures next { IfOk result (λ next. AlwaysNext next (config_of config.old) (config_of config.new)) }
    ensures err { OnErr result (config_of config.new ≡ config_of config.old) }
    ensures lists { AllListVariables config.new }
{
    let Some(values) = values_of(alloc, &config.top.store, &config.heap, values)? else {
        return Ok(Next::Fault);
    };
    let results = config.top.procedure.results.as_slice();
    assign(&mut config.top.store, results, values.as_slice());
    if config.below.is_empty() {
        config.top.rest.clear();
        return Ok(Next::Ended);
    }
    Ok(pop(config))
}

impl Config<'_> {
    /// How many values a choice has to have in `starts`: the number of the callee's results and locals
    /// where a call comes next, else 0.
    pub fn starts_wanted(&self, typed: &Typed) -> u32
        requires made { IsMadeFor (program_of typed.now) self.now }
        ensures wanted { WantsStarts (program_of typed.now) (config_of self.now).top.rest result }
    {
        let Some(Stmt::Call { callee, .. }) = self.top.rest.first() else {
            return 0;
        };
        let Some(procedure) = find(typed.program(), &callee.name) else {
            return 0;
        };
        count_starts(procedure) as u32
    }
}

/// Makes one step under a choice.
pub fn step<'p>(
    alloc: Global,
    typed: &'p Typed,
    config: &mut Config<'p>,
    choice: &Choice,
) -> Result<Next, AllocError>
    requires made { IsMadeFor (program_of typed.now) config.old }
    ensures next { IfOk result (λ next. IsNextOf (program_of typed.now) choice.now next config.old config.new) }
    ensures err { OnErr result (config_of config.new ≡ config_of config.old) }
    ensures made { IsMadeFor (program_of typed.now) config.new }
{
    let Some(statement) = config.top.rest.first() else {
        return Ok(pop(config));
    };
    match statement {
        Stmt::Set { target, value } => Ok(set_variable(config, target, value)),
        Stmt::New { target } => make_cell(config, target, choice),
        Stmt::Write { at, value } => write_cell(config, at, value),
        Stmt::Free { at } => Ok(free_cell(config, at)),
        Stmt::Call {
            callee,
            arguments,
            ..
        } => call(alloc, typed, config, callee, arguments.as_slice(), choice),
        Stmt::If {
            test,
            taken,
            otherwise,
        } => branch(config, test, taken, otherwise),
        Stmt::While { test, body, .. } => turn(config, test, body),
        Stmt::Return { values, .. } => give(alloc, config, values.as_slice()),
    }
}
