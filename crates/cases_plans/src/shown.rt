//! Steps as answers write them.

use cases_text::{put, put_shown, put_text};
use osgi_base::{BundleId, ServiceId, Text};
use osgi_lifecycle::Next;
use osgi_ops::{Op, Section, Target};
use std::alloc::AllocError;

fn name_of(op: &Op) -> &'static str {
    match op {
        Op::Register { .. } => "Register",
        Op::Modify { .. } => "Modify",
        Op::Unregister { .. } => "Unregister",
        Op::Find { .. } => "Find",
        Op::FindAll { .. } => "FindAll",
        Op::Get { .. } => "Get",
        Op::Unget { .. } => "Unget",
        Op::GetOwn { .. } => "GetOwn",
        Op::EndMake { .. } => "EndMake",
        Op::Give { .. } => "Give",
        Op::UngetOwn { .. } => "UngetOwn",
        Op::AddListener { .. } => "AddListener",
        Op::RemoveListener { .. } => "RemoveListener",
        Op::Hand => "Hand",
        Op::EndHand { .. } => "EndHand",
        Op::QueueJob { .. } => "QueueJob",
        Op::TakeJob => "TakeJob",
        Op::EndJob => "EndJob",
        Op::Print { .. } => "Print",
        Op::Fail { .. } => "Fail",
        Op::Install { .. } => "Install",
        Op::Resolve { .. } => "Resolve",
        Op::WishStart { .. } => "WishStart",
        Op::BeginStart { .. } => "BeginStart",
        Op::Await { .. } => "Await",
        Op::EndStart { .. } => "EndStart",
        Op::BeginStop { .. } => "BeginStop",
        Op::EndStop { .. } => "EndStop",
        Op::Update { .. } => "Update",
        Op::Uninstall { .. } => "Uninstall",
        Op::BeginRefresh { .. } => "BeginRefresh",
        Op::DropWirings => "DropWirings",
        Op::EndRefresh => "EndRefresh",
        Op::BeginLevel { .. } => "BeginLevel",
        Op::ListLevel { .. } => "ListLevel",
        Op::MoveLevel { .. } => "MoveLevel",
        Op::EndLevel => "EndLevel",
        Op::SetBundleLevel { .. } => "SetBundleLevel",
        Op::Load { .. } => "Load",
        Op::ListBundles => "ListBundles",
        Op::ListServices => "ListServices",
        Op::ListWires { .. } => "ListWires",
    }
}

fn target_of(target: &Target) -> u32 {
    match target {
        Target::Id(bundle) => bundle.0,
        Target::Name(_) => u32::MAX,
    }
}

/// The bundle of an operation, its first one, its listener, or its level.
fn first_number(op: &Op) -> Option<u32> {
    match op {
        Op::Register { owner, .. }
        | Op::Modify { owner, .. }
        | Op::Unregister { owner, .. }
        | Op::AddListener { owner, .. }
        | Op::RemoveListener { owner, .. }
        | Op::QueueJob { owner, .. }
        | Op::Print { owner, .. }
        | Op::Fail { owner, .. } => Some(owner.0),
        Op::EndHand { listener } => Some(listener.0),
        Op::Find { asker, .. } | Op::FindAll { asker, .. } => Some(asker.0),
        Op::Get { user, .. } | Op::Unget { user, .. } => Some(user.0),
        Op::WishStart { target, .. } | Op::BeginStop { target, .. } => Some(target_of(target)),
        Op::Resolve { bundle }
        | Op::BeginStart { bundle, .. }
        | Op::EndStart { bundle, .. }
        | Op::EndStop { bundle, .. }
        | Op::Update { bundle, .. }
        | Op::Uninstall { bundle }
        | Op::SetBundleLevel { bundle, .. }
        | Op::Load { bundle, .. }
        | Op::ListWires { bundle } => Some(bundle.0),
        Op::BeginRefresh { bundles } => bundles.items().first().map(|bundle| bundle.0),
        Op::BeginLevel { target_level } => Some(u32::from(*target_level)),
        Op::ListLevel { level } => Some(u32::from(*level)),
        Op::MoveLevel { to } => Some(u32::from(*to)),
        _ => None,
    }
}

/// The service of an operation, or the level that a bundle is to have.
fn second_number(op: &Op) -> Option<u64> {
    match op {
        Op::Modify { service, .. }
        | Op::Unregister { service, .. }
        | Op::Get { service, .. }
        | Op::Unget { service, .. } => Some(service.0),
        Op::SetBundleLevel { level, .. } => Some(u64::from(*level)),
        _ => None,
    }
}

fn text_of(op: &Op) -> Option<&Text> {
    match op {
        Op::Register { object, .. } => Some(object),
        Op::Find { class, .. } | Op::FindAll { class, .. } | Op::Load { class, .. } => Some(class),
        Op::AddListener { name, .. }
        | Op::RemoveListener { name, .. }
        | Op::QueueJob { name, .. } => Some(name),
        Op::Print { text, .. } | Op::Fail { text, .. } => Some(text),
        Op::Install { location } | Op::Update { location, .. } => Some(location),
        _ => None,
    }
}

fn flag_of(op: &Op) -> &'static str {
    match op {
        Op::WishStart { transient, .. }
        | Op::BeginStart { transient, .. }
        | Op::BeginStop { transient, .. } => { if *transient { " transient" } else { "" } }
        Op::EndStart { failed, .. } | Op::EndStop { failed, .. } => {
            if *failed { " failed" } else { "" }
        }
        _ => "",
    }
}

fn put_number(out: &mut String, number: Option<u64>) -> Result<(), AllocError> {
    match number {
        Some(number) => {
            put(out, " ")?;
            put_shown(out, &number)
        }
        None => Ok(()),
    }
}

pub fn add_op(out: &mut String, op: &Op) -> Result<(), AllocError> {
    put(out, name_of(op))?;
    put_number(out, first_number(op).map(u64::from))?;
    put_number(out, second_number(op))?;
    if let Some(text) = text_of(op) {
        put(out, " ")?;
        put_text(out, text)?;
    }
    put(out, flag_of(op))
}

fn add_run(
    out: &mut String,
    row: u32,
    owner: BundleId,
    section: &Section,
) -> Result<(), AllocError> {
    put(out, "run")?;
    put_number(out, Some(u64::from(row)))?;
    put_number(out, Some(u64::from(owner.0)))?;
    put(
        out,
        match section {
            Section::Start => " start",
            Section::Stop => " stop",
            _ => " other",
        },
    )
}

fn add_end(
    out: &mut String,
    refused: bool,
    failed: bool,
    bound: Option<ServiceId>,
) -> Result<(), AllocError> {
    put(out, "end")?;
    put(out, if refused { " refused" } else { "" })?;
    put(out, if failed { " failed" } else { "" })?;
    put_number(out, bound.map(|service| service.0))
}

/// Adds a step.
pub fn add_step(out: &mut String, step: &Next) -> Result<(), AllocError> {
    match step {
        Next::Do { op } => add_op(out, op),
        Next::Drain => put(out, "drain"),
        Next::Run {
            row,
            owner,
            section,
        } => add_run(out, *row, *owner, section),
        Next::End {
            refused,
            failed,
            bound,
        } => add_end(out, *refused, *failed, *bound),
    }
}
