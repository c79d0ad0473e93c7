//! Starts, and what comes after them.

ghost use Rattle.std.specs.Prelude.{◌≡◌, false};
ghost use Rattle.osgi_session.specs.Plans as plans;
ghost use Rattle.osgi_lifecycle.specs.Following.{after_start, left_of};

use crate::at::{AfterStart, At};
use crate::head::{End, Head};
use crate::rest::Rest;
use osgi_base::BundleId;
use osgi_ops::{Op, Reply, Section, Target};

impl Rest {
    pub fn start(&mut self, target: Target, transient: bool, after: AfterStart) -> Head
        ensures left { left_of result self.new
            ≡ plans.start target transient (after_start after self.old.kept) }
    {
        self.at = At::WishStart { transient, after };
        Head::Ask {
            op: Op::WishStart { target, transient },
        }
    }

    pub fn after_wish(&mut self, transient: bool, after: AfterStart, reply: &Reply) -> Head
        ensures left { left_of result self.new
            ≡ plans.after_wish transient (after_start after self.old.kept) reply.now }
    {
        match reply {
            &Reply::Go { bundle } => {
                self.at = At::Resolve {
                    bundle,
                    transient,
                    after,
                };
                Head::Ask {
                    op: Op::Resolve { bundle },
                }
            }
            _ => self.after_start(after, reply.is_refusal()),
        }
    }

    pub fn after_resolve(
        &mut self,
        bundle: BundleId,
        transient: bool,
        after: AfterStart,
        reply: &Reply,
    ) -> Head
        ensures left { left_of result self.new
            ≡ plans.after_resolve bundle transient (after_start after self.old.kept) reply.now }
    {
        if reply.is_refusal() {
            return self.after_start(after, true);
        }
        self.at = At::BeginStart { bundle, after };
        Head::Ask {
            op: Op::BeginStart { bundle, transient },
        }
    }

    /// What comes after the wish to start a bundle that may wait.
    pub fn after_wish_lazy(&mut self, reply: &Reply) -> Head
        ensures left { left_of result self.new
            ≡ plans.after_wish_lazy (after_start (AfterStart.End false) self.old.kept) reply.now }
    {
        let &Reply::Go { bundle } = reply else {
            return self.after_start(AfterStart::End { refused: false }, reply.is_refusal());
        };
        self.at = At::ResolveLazy { bundle };
        Head::Ask {
            op: Op::Resolve { bundle },
        }
    }

    pub fn after_resolve_lazy(&mut self, bundle: BundleId, reply: &Reply) -> Head
        ensures left { left_of result self.new
            ≡ plans.after_resolve_lazy bundle (after_start (AfterStart.End false) self.old.kept)
            reply.now }
    {
        if let Reply::Refused { .. } = reply {
            return self.after_start(AfterStart::End { refused: false }, true);
        }
        self.at = At::Await { bundle };
        Head::Ask {
            op: Op::Await { bundle },
        }
    }

    /// Where the bundle does not wait, it is started.
    pub fn after_await(&mut self, bundle: BundleId, reply: &Reply) -> Head
        ensures left { left_of result self.new
            ≡ plans.after_await bundle (after_start (AfterStart.End false) self.old.kept)
            reply.now }
    {
        let after = AfterStart::End { refused: false };
        match reply {
            Reply::Eager { .. } => {
                self.at = At::BeginStart { bundle, after };
                Head::Ask {
                    op: Op::BeginStart {
                        bundle,
                        transient: false,
                    },
                }
            }
            _ => self.after_start(after, reply.is_refusal()),
        }
    }

    pub fn after_begin_start(&mut self, bundle: BundleId, after: AfterStart, reply: &Reply) -> Head
        ensures left { left_of result self.new
            ≡ plans.after_begin_start bundle (after_start after self.old.kept) reply.now }
    {
        match reply {
            &Reply::Begun { bundle: _, row } => {
                self.at = At::StartSection { bundle, after };
                Head::Run {
                    row,
                    owner: bundle,
                    section: Section::Start,
                }
            }
            _ => self.after_start(after, reply.is_refusal()),
        }
    }

    /// What comes after a start, which was refused or not.
    pub fn after_start(&mut self, after: AfterStart, refused: bool) -> Head
        ensures left { left_of result self.new ≡ after_start after self.old.kept refused }
    {
        match after {
            AfterStart::End { refused: before } => Head::Stop {
                end: End::of(before || refused),
            },
            AfterStart::Loaded => Head::Stop { end: End::Done },
            AfterStart::Refresh => self.start_member(),
            AfterStart::Climb { level, to } => self.start_at_level(level, to),
        }
    }
}
