//! Stops, and what comes after them.

ghost use Rattle.std.specs.Prelude.{◌≡◌};
ghost use Rattle.osgi_session.specs.Plans as plans;
ghost use Rattle.osgi_lifecycle.specs.Following.{after_stop, end_in, left_of, stop_in};

use crate::at::{AfterStop, At, HowStopped};
use crate::head::{End, Head};
use crate::rest::Rest;
use osgi_ops::{Op, Refusal, Reply, Section, Target};

impl HowStopped {
    /// How a stop went that was answered so at its end.
    pub fn of(reply: &Reply) -> HowStopped
        ensures how { stop_in result ≡ plans.how_stopped reply.now }
    {
        match reply {
            Reply::Refused { refusal } => HowStopped::refused(refusal),
            _ => HowStopped::Stopped { begun: true },
        }
    }

    fn refused(refusal: &Refusal) -> HowStopped
        ensures how { stop_in result ≡ plans.how_stopped (Reply.Refused refusal.now) }
    {
        match refusal {
            Refusal::ActivatorError => HowStopped::SectionFailed,
            _ => HowStopped::NotStopped,
        }
    }
}

impl Rest {
    pub fn halt(&mut self, target: Target, transient: bool, after: AfterStop) -> Head
        ensures left { left_of result self.new
            ≡ plans.halt target transient (after_stop after self.old.kept) }
    {
        self.at = At::BeginStop { after };
        Head::Ask {
            op: Op::BeginStop { target, transient },
        }
    }

    pub fn after_begin_stop(&mut self, after: AfterStop, reply: &Reply) -> Head
        ensures left { left_of result self.new
            ≡ plans.after_begin_stop (after_stop after self.old.kept) reply.now }
    {
        match reply {
            &Reply::Begun { bundle, row } => {
                self.at = At::StopSection { bundle, after };
                Head::Run {
                    row,
                    owner: bundle,
                    section: Section::Stop,
                }
            }
            Reply::Refused { .. } => self.after_stop(after, HowStopped::NotStopped),
            _ => self.after_stop(after, HowStopped::Stopped { begun: false }),
        }
    }

    /// What comes after a stop, by how it went.
    pub fn after_stop(&mut self, after: AfterStop, how: HowStopped) -> Head
        ensures left { left_of result self.new ≡ after_stop after self.old.kept (stop_in how) }
    {
        match after {
            AfterStop::End => Head::Stop {
                end: End::after_stop(how),
            },
            AfterStop::Update { bundle } => self.update(bundle, how),
            AfterStop::Uninstall { bundle } => self.uninstall(bundle, how),
            AfterStop::Refresh => self.stop_member_after(how),
            AfterStop::Descend { level, to } => self.stop_at_level(level, to),
            AfterStop::SetLevel { bundle, level } => self.set_level_again(bundle, level, how),
        }
    }
}

impl End {
    /// The end of a plan that is a stop.
    fn after_stop(how: HowStopped) -> End
        ensures end { plans.stop (end_in result)
            ≡ plans.if_it_stopped (plans.stop plans.done) (stop_in how) }
    {
        match how {
            HowStopped::Stopped { .. } => End::Done,
            _ => End::Refused,
        }
    }
}
