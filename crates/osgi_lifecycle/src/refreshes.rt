//! Refreshes: the members are stopped, the wirings dropped, and the members started in the opposite order.

ghost use Rattle.std.specs.Prelude.{◌≡◌};
ghost use Rattle.osgi_session.specs.Plans as plans;
ghost use Rattle.osgi_lifecycle.specs.Following.{after_drop, left_of, starting_members, stop_in, stopping_members};

use crate::at::{AfterStart, AfterStop, At, HowStopped};
use crate::head::{End, Head};
use crate::rest::Rest;
use osgi_ops::{Op, Reply, Target};

impl Rest {
    pub fn after_begin_refresh(&mut self, reply: Reply) -> Head
        ensures left { left_of result self.new ≡ plans.after_begin_refresh reply }
    {
        let end = End::after_one(&reply);
        match reply.into_active() {
            None => Head::Stop { end },
            active => {
                self.kept.put_bundles(active);
                self.stop_member()
            }
        }
    }

    /// The next member is stopped, unless the stop before it was refused.
    pub fn stop_member_after(&mut self, how: HowStopped) -> Head
        ensures left { left_of result self.new
            ≡ plans.even_if_its_section_failed (stopping_members self.old.kept) (stop_in how) }
    {
        match how {
            HowStopped::NotStopped => Head::Stop { end: End::Refused },
            _ => self.stop_member(),
        }
    }

    /// The next member is stopped, or, where none is left, the wirings are dropped.
    fn stop_member(&mut self) -> Head
        ensures left { left_of result self.new ≡ stopping_members self.old.kept }
    {
        match self.kept.next_bundle() {
            Some(bundle) => self.halt(Target::Id(bundle), true, AfterStop::Refresh),
            None => {
                self.at = At::DropWirings;
                Head::Ask {
                    op: Op::DropWirings,
                }
            }
        }
    }

    pub fn after_drop(&mut self, reply: &Reply) -> Head
        ensures left { left_of result self.new ≡ after_drop self.old.kept.bundles.items reply.now }
    {
        if reply.is_refusal() {
            return Head::Stop { end: End::Refused };
        }
        self.start_member()
    }

    /// The last of the members that are left is started, or, where none is left, the refresh ends.
    pub fn start_member(&mut self) -> Head
        ensures left { left_of result self.new ≡ starting_members self.old.kept }
    {
        match self.kept.bundles.pop() {
            Some(bundle) => self.start(Target::Id(bundle), true, AfterStart::Refresh),
            None => {
                self.at = At::Only;
                Head::Ask { op: Op::EndRefresh }
            }
        }
    }
}
