//! What comes after a reply, or after a section.

ghost use Rattle.std.specs.Prelude.{◌≡◌};
ghost use Rattle.osgi_lifecycle.specs.Following.{after_reply, after_section, left_of};

use crate::at::{At, HowStopped};
use crate::head::{End, Head};
use crate::rest::Rest;
use osgi_ops::{Op, Reply};

impl Rest {
    /// What comes after the reply for which the plan waits.
    pub fn after_reply(&mut self, reply: Reply) -> Head
        ensures left { left_of result self.new ≡ after_reply self.old.at self.old.kept reply }
    {
        match self.at {
            At::Only => Head::Stop {
                end: End::after_one(&reply),
            },
            At::Register => Head::Stop {
                end: End::after_register(&reply),
            },
            At::Find => Head::Stop {
                end: End::after_find(&reply),
            },
            At::Fail => Head::Stop {
                end: End::after_fail(&reply),
            },
            At::Get => self.after_get(reply),
            At::WishLazy => self.after_wish_lazy(&reply),
            At::ResolveLazy { bundle } => self.after_resolve_lazy(bundle, &reply),
            At::Await { bundle } => self.after_await(bundle, &reply),
            At::WishStart { transient, after } => self.after_wish(transient, after, &reply),
            At::Resolve {
                bundle,
                transient,
                after,
            } => self.after_resolve(bundle, transient, after, &reply),
            At::BeginStart { bundle, after } => self.after_begin_start(bundle, after, &reply),
            At::EndStart { after } => self.after_start(after, reply.is_refusal()),
            At::BeginStop { after } => self.after_begin_stop(after, &reply),
            At::EndStop { after } => self.after_stop(after, HowStopped::of(&reply)),
            At::LoadResolve { bundle } => self.load(bundle, &reply),
            At::Load => self.after_load(&reply),
            At::Update { bundle, restart } => {
                self.after_update(bundle, restart, reply.is_refusal())
            }
            At::BeginRefresh => self.after_begin_refresh(reply),
            At::DropWirings => self.after_drop(&reply),
            At::BeginLevel => self.after_begin_level(&reply),
            At::MoveUp { level, to } => self.after_move_up(level, to, reply),
            At::ListLevel { level, to } => self.after_list_level(level, to, reply),
            At::MoveDown { level, to } => self.after_move_down(level, to, &reply),
            At::SetLevel { bundle, level } => self.after_set_level(bundle, level, &reply),
            At::SetLevelAgain { bundle } => self.after_last_level_set(bundle, &reply),
            At::StartSection { .. } | At::StopSection { .. } | At::MakeSection => {
                Head::Stop { end: End::Refused }
            }
        }
    }

    /// What comes after the section whose end the plan waits for.
    pub fn after_section(&mut self, failed: bool) -> Head
        ensures left { left_of result self.new ≡ after_section self.old.at self.old.kept failed }
    {
        match self.at {
            At::StartSection { bundle, after } => {
                self.at = At::EndStart { after };
                Head::Ask {
                    op: Op::EndStart { bundle, failed },
                }
            }
            At::StopSection { bundle, after } => {
                self.at = At::EndStop { after };
                Head::Ask {
                    op: Op::EndStop { bundle, failed },
                }
            }
            At::MakeSection => {
                self.at = At::Only;
                Head::Ask {
                    op: Op::EndMake { failed },
                }
            }
            _ => Head::Stop { end: End::Refused },
        }
    }
}
