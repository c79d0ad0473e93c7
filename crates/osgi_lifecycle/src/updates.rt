//! Updates, uninstalls, loads, objects, and the levels of bundles: what comes after their operations.

ghost use Rattle.std.specs.Prelude.{◌≡◌};
ghost use Rattle.osgi_session.specs.Plans as plans;
ghost use Rattle.osgi_lifecycle.specs.Following.{left_of, stop_in};

use crate::at::{AfterStart, AfterStop, At, HowStopped};
use crate::head::{End, Head};
use crate::rest::Rest;
use osgi_base::BundleId;
use osgi_ops::{Op, Reply, Section, Target};

impl Rest {
    /// The update, where the stop before it was not refused.
    pub fn update(&mut self, bundle: BundleId, how: HowStopped) -> Head
        ensures left { left_of result self.new
            ≡ plans.after_stop_to_update bundle self.old.kept.text (stop_in how) }
    {
        let restart = match how {
            HowStopped::Stopped { begun } => begun,
            HowStopped::SectionFailed => true,
            HowStopped::NotStopped => return Head::Stop { end: End::Refused },
        };
        let location = self.kept.take_text();
        self.at = At::Update { bundle, restart };
        Head::Ask {
            op: Op::Update { bundle, location },
        }
    }

    pub fn after_update(&mut self, bundle: BundleId, restart: bool, refused: bool) -> Head
        ensures left { left_of result self.new ≡ plans.restart bundle restart refused }
    {
        if restart {
            self.start(Target::Id(bundle), true, AfterStart::End { refused })
        } else {
            Head::Stop {
                end: End::of(refused),
            }
        }
    }

    /// The uninstall, where the stop before it was not refused.
    pub fn uninstall(&mut self, bundle: BundleId, how: HowStopped) -> Head
        ensures left { left_of result self.new
            ≡ plans.even_if_its_section_failed (plans.one (Op.Uninstall bundle)) (stop_in how) }
    {
        match how {
            HowStopped::NotStopped => Head::Stop { end: End::Refused },
            _ => {
                self.at = At::Only;
                Head::Ask {
                    op: Op::Uninstall { bundle },
                }
            }
        }
    }

    /// The load, where the bundle could be resolved.
    pub fn load(&mut self, bundle: BundleId, reply: &Reply) -> Head
        ensures left { left_of result self.new
            ≡ plans.unless_refused reply.now
            (plans.ask (Op.Load bundle self.old.kept.text) plans.after_load) }
    {
        if reply.is_refusal() {
            return Head::Stop { end: End::Refused };
        }
        let class = self.kept.take_text();
        self.at = At::Load;
        Head::Ask {
            op: Op::Load { bundle, class },
        }
    }

    /// A bundle that waited for the class is started.
    pub fn after_load(&mut self, reply: &Reply) -> Head
        ensures left { left_of result self.new ≡ plans.after_load reply.now }
    {
        match reply {
            &Reply::LoadedMore {
                by: _,
                wire: _,
                wake: Some(bundle),
            } => self.start(Target::Id(bundle), true, AfterStart::Loaded),
            _ => Head::Stop {
                end: End::after_one(reply),
            },
        }
    }

    /// An object that is to be made is made by a section.
    pub fn after_get(&mut self, reply: Reply) -> Head
        ensures left { left_of result self.new ≡ plans.after_get reply }
    {
        let end = End::after_one(&reply);
        match reply.into_make() {
            Some((owner, row, name)) => {
                self.at = At::MakeSection;
                Head::Run {
                    row,
                    owner,
                    section: Section::Make(name),
                }
            }
            None => Head::Stop { end },
        }
    }

    pub fn after_set_level(&mut self, bundle: BundleId, level: u8, reply: &Reply) -> Head
        ensures left { left_of result self.new ≡ plans.after_level_set bundle level reply.now }
    {
        match reply {
            Reply::Up { .. } => {
                self.halt(
                    Target::Id(bundle),
                    true,
                    AfterStop::SetLevel { bundle, level },
                )
            }
            _ => self.after_last_level_set(bundle, reply),
        }
    }

    /// The level is set again, where the stop before it was not refused.
    pub fn set_level_again(&mut self, bundle: BundleId, level: u8, how: HowStopped) -> Head
        ensures left { left_of result self.new
            ≡ plans.if_it_stopped
            (plans.ask (Op.SetBundleLevel bundle level) (plans.after_last_level_set bundle))
            (stop_in how) }
    {
        match how {
            HowStopped::Stopped { .. } => {
                self.at = At::SetLevelAgain { bundle };
                Head::Ask {
                    op: Op::SetBundleLevel { bundle, level },
                }
            }
            _ => Head::Stop { end: End::Refused },
        }
    }

    /// Where the level was set for good, the bundle is started, if it is to be.
    pub fn after_last_level_set(&mut self, bundle: BundleId, reply: &Reply) -> Head
        ensures left { left_of result self.new ≡ plans.after_last_level_set bundle reply.now }
    {
        match reply {
            Reply::Leveled { value: true } => {
                self.start(Target::Id(bundle), true, AfterStart::End { refused: false })
            }
            _ => Head::Stop {
                end: End::after_one(reply),
            },
        }
    }
}
