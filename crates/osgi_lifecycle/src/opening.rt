//! Where the plan of a command waits first.

ghost use Rattle.std.specs.Prelude.{◌≡◌, [], false, unwrap_or};
ghost use Rattle.osgi_session.specs.Beginnings.{is_peek, later_text, op_of};
ghost use Rattle.osgi_session.specs.Plans as plans;
ghost use Rattle.osgi_lifecycle.specs.Following.{after_reply};
ghost use Rattle.osgi_lifecycle.specs.declared.kept.Kept.{Kept};

use crate::at::{AfterStart, AfterStop, At};
use osgi_base::BundleId;
use osgi_session::Command;

/// Whether the command asks for no operation.
pub fn is_peek(command: &Command) -> bool
    ensures peek { result ≡ is_peek command.now }
{
    matches!(command, Command::Peek { .. })
}

impl At {
    /// Where the plan of the command waits after its first operation, where the owner runs it.
    pub fn first(command: &Command, owner: BundleId) -> At
        requires asks { is_peek command.now ≡ false }
        ensures plan { (kept : Kept)
            → plans.plan owner command.now
            ≡ plans.ask (op_of owner command.now)
            (after_reply result
            (record kept { text = unwrap_or (later_text owner command.now) [] })) }
    {
        match command {
            Command::Register { .. } | Command::Factory { .. } => At::Register,
            Command::Find { .. } => At::Find,
            Command::Fail { .. } => At::Fail,
            Command::Get { .. } | Command::GetOwn { .. } => At::Get,
            Command::StartLazy { .. } => At::WishLazy,
            Command::Start { transient, .. } => At::WishStart {
                transient: *transient,
                after: AfterStart::End { refused: false },
            },
            Command::Stop { .. } => At::BeginStop {
                after: AfterStop::End,
            },
            Command::Load { bundle, .. } => {
                if owner.0 == 0 {
                    At::LoadResolve { bundle: *bundle }
                } else {
                    At::Load
                }
            }
            Command::Update { bundle, .. } => At::BeginStop {
                after: AfterStop::Update { bundle: *bundle },
            },
            Command::Uninstall { bundle } => At::BeginStop {
                after: AfterStop::Uninstall { bundle: *bundle },
            },
            Command::Refresh { .. } => At::BeginRefresh,
            Command::Level { .. } => At::BeginLevel,
            Command::BundleLevel { bundle, level } => At::SetLevel {
                bundle: *bundle,
                level: *level,
            },
            _ => At::Only,
        }
    }
}
