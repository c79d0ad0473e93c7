//! What statements run as, and what their variables hold.

ghost use Rattle.std.specs.Option.{option_map};
ghost use Rattle.std.specs.Prelude.{◌≡◌, ℕ, List, false, IfOk, OnOk, find, reverse};
ghost use Rattle.std.specs.Borrow.{Bor};
ghost use Rattle.std.specs.Str.{bytes_eq};
ghost use Rattle.osgi_runner.specs.declared.statements.Binding.{Binding};
ghost use Rattle.osgi_runner.specs.computed.States.{bindings_of};
ghost use Rattle.osgi_runner.specs.computed.States.{end_by};
ghost use Rattle.osgi_session.specs.Runs.{bind, bound_by, command_of, held};

use osgi_base::{BundleId, List, ServiceId, Text, copy_three, copy_two};
use osgi_model::{Attributes, Filter};
use osgi_ops::{Kind, Scope, Target};
use osgi_session::{Command, Statement};
use std::alloc::{AllocError, Global};

/// What a variable of a section holds.
pub struct Binding {
    pub var: Text,
    pub service: ServiceId,
}

/// Not derived, so that each exit at which one is dropped is a single call, which is cheap to prove.
impl Drop for Binding {
    fn drop(self) {
        let Binding { var: _, service: _ } = self;
    }
}

/// What stands for a variable that holds nothing.
const NO_SERVICE: ServiceId = ServiceId(0);

/// The service of the latest binding of a variable.
fn latest(bindings: &[Binding], var: &Text) -> Option<ServiceId>
    ensures latest { result
        ≡ option_map (λ (b : Binding). b.service)
        (find (λ (b : Binding). bytes_eq b.var var.now) (reverse bindings.now)) }
{
    bindings
        .iter()
        .rev()
        .find(|binding| binding.var == *var)
        .map(|binding| binding.service)
}

/// The service that a variable holds, by its latest binding.
fn held(bindings: &[Binding], var: &Text) -> ServiceId
    ensures held { result ≡ held (bindings_of bindings.now) var.now }
{
    latest(bindings, var).unwrap_or(NO_SERVICE)
}

fn register(
    alloc: Global,
    classes: &List<Text>,
    object: &Text,
    properties: &Attributes,
) -> Result<Command, AllocError>
    ensures made { IfOk result (λ made.
        made ≡ Command.Register classes.now object.now properties.now) }
{
    let (classes, object, properties) = copy_three(classes, object, properties, alloc)?;
    Ok(Command::Register {
        classes,
        object,
        properties,
    })
}

fn factory(
    alloc: Global,
    classes: &List<Text>,
    scope: Scope,
    name: &Text,
    properties: &Attributes,
) -> Result<Command, AllocError>
    ensures made { IfOk result (λ made.
        made ≡ Command.Factory classes.now scope name.now properties.now) }
{
    let (classes, name, properties) = copy_three(classes, name, properties, alloc)?;
    Ok(Command::Factory {
        classes,
        scope,
        name,
        properties,
    })
}

fn find(alloc: Global, class: &Text, filter: &Option<Filter>) -> Result<Command, AllocError>
    ensures made { IfOk result (λ made. made ≡ Command.Find class.now filter.now) }
{
    let (class, filter) = copy_two(class, filter, alloc)?;
    Ok(Command::Find { class, filter })
}

fn listen(
    alloc: Global,
    name: &Text,
    kind: Kind,
    filter: &Option<Filter>,
) -> Result<Command, AllocError>
    ensures made { IfOk result (λ made. made ≡ Command.Listen name.now kind filter.now) }
{
    let (name, filter) = copy_two(name, filter, alloc)?;
    Ok(Command::Listen { name, kind, filter })
}

/// The command that a statement runs as, in a section of this bundle.
pub fn command_of(
    alloc: Global,
    owner: BundleId,
    bindings: &[Binding],
    statement: &Statement,
) -> Result<Command, AllocError>
    ensures command { IfOk result (λ made.
        made ≡ command_of owner (bindings_of bindings.now) statement.now) }
{
    match statement {
        Statement::Register {
            var: _,
            classes,
            object,
            properties,
        } => register(alloc, classes, object, properties),
        Statement::Modify { var, properties } => Ok(Command::Modify {
            service: held(bindings, var),
            properties: properties.copy(alloc)?,
        }),
        Statement::Unregister { var } => Ok(Command::Unregister {
            service: held(bindings, var),
        }),
        Statement::Find {
            var: _,
            class,
            filter,
        } => find(alloc, class, filter),
        Statement::Get { var } => Ok(Command::Get {
            service: held(bindings, var),
        }),
        Statement::Unget { var } => Ok(Command::Unget {
            service: held(bindings, var),
        }),
        Statement::GetOwn { var } => Ok(Command::GetOwn {
            service: held(bindings, var),
        }),
        Statement::Factory {
            var: _,
            classes,
            scope,
            name,
            properties,
        } => factory(alloc, classes, *scope, name, properties),
        Statement::Give { text } => Ok(Command::Give {
            text: text.copy(alloc)?,
        }),
        Statement::Start { name } => Ok(Command::Start {
            target: Target::Name(name.copy(alloc)?),
            transient: false,
        }),
        Statement::Stop { name } => Ok(Command::Stop {
            target: Target::Name(name.copy(alloc)?),
            transient: false,
        }),
        Statement::Load { class } => Ok(Command::Load {
            bundle: owner,
            class: class.copy(alloc)?,
        }),
        Statement::Listen { name, kind, filter } => listen(alloc, name, *kind, filter),
        Statement::Unlisten { name } => Ok(Command::Unlisten {
            name: name.copy(alloc)?,
        }),
        Statement::Job { name } => Ok(Command::Job {
            name: name.copy(alloc)?,
        }),
        Statement::Print { text } => Ok(Command::Print {
            text: text.copy(alloc)?,
        }),
        Statement::Fail { text } => Ok(Command::Fail {
            text: text.copy(alloc)?,
        }),
    }
}

/// The variable that a statement binds.
fn bound_by(statement: &Statement) -> Option<&Text>
    ensures var { option_map (λ (var : Bor (List ℕ)). var.now) result ≡ bound_by statement.now }
{
    match statement {
        Statement::Register { var, .. }
        | Statement::Find { var, .. }
        | Statement::Factory { var, .. } => Some(var),
        _ => None,
    }
}

/// Binds the statement's variable to what it found or registered. If memory runs out, it may be bound or not.
pub fn bind(
    alloc: Global,
    bindings: &mut Vec<Binding>,
    statement: &Statement,
    found: Option<ServiceId>,
) -> Result<(), AllocError>
    ensures bound { OnOk result
        (bindings_of bindings.new.items
        ≡ bind (bound_by statement.now) (end_by false found) (bindings_of bindings.old.items)) }
{
    if let (Some(var), Some(service)) = (bound_by(statement), found) {
        bindings.push(Binding {
            var: var.copy(alloc)?,
            service,
        })?;
    }
    Ok(())
}
