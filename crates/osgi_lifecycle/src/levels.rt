//! Changes of the active start level: level by level, the bundles of each are started or stopped.

ghost use Rattle.std.specs.Prelude.{◌≡◌, ◌-◌};
ghost use Rattle.osgi_session.specs.Plans as plans;
ghost use Rattle.osgi_lifecycle.specs.Following.{after_move_down, left_of, starting_level, stopping_level};

use crate::at::{AfterStart, AfterStop, At};
use crate::head::{End, Head};
use crate::rest::Rest;
use osgi_ops::{Op, Reply, Target};

impl Rest {
    pub fn after_begin_level(&mut self, reply: &Reply) -> Head
        ensures left { left_of result self.new ≡ plans.after_begin_level reply.now }
    {
        match reply {
            &Reply::Level { from, to } => {
                if to < from {
                    self.descend(from, to)
                } else {
                    self.climb(from, to)
                }
            }
            _ => Head::Stop {
                end: End::after_one(reply),
            },
        }
    }

    fn end_level(&mut self) -> Head
        ensures left { left_of result self.new ≡ plans.one Op.EndLevel }
    {
        self.at = At::Only;
        Head::Ask { op: Op::EndLevel }
    }

    /// One level up, or, at the target, the end.
    fn climb(&mut self, level: u8, to: u8) -> Head
        ensures left { left_of result self.new ≡ plans.climb (to - level) level }
    {
        if level >= to {
            return self.end_level();
        }
        let level = level + 1;
        self.at = At::MoveUp { level, to };
        Head::Ask {
            op: Op::MoveLevel { to: level },
        }
    }

    pub fn after_move_up(&mut self, level: u8, to: u8, reply: Reply) -> Head
        ensures left { left_of result self.new
            ≡ plans.or_end_the_walk reply
            (plans.start_all (plans.to_start reply) (plans.climb (to - level) level)) }
    {
        if reply.is_refusal() {
            return self.end_level();
        }
        self.kept.put_bundles(reply.into_started());
        self.start_at_level(level, to)
    }

    /// The next bundle of the level is started, or, where none is left, the way goes on.
    pub fn start_at_level(&mut self, level: u8, to: u8) -> Head
        ensures left { left_of result self.new ≡ starting_level level to self.old.kept }
    {
        match self.kept.next_bundle() {
            Some(bundle) => self.start(Target::Id(bundle), true, AfterStart::Climb { level, to }),
            None => self.climb(level, to),
        }
    }

    /// One level down, or, at the target, the end.
    fn descend(&mut self, level: u8, to: u8) -> Head
        ensures left { left_of result self.new ≡ plans.descend (level - to) level }
    {
        if level <= to {
            return self.end_level();
        }
        let below = level - 1;
        self.at = At::ListLevel { level: below, to };
        Head::Ask {
            op: Op::ListLevel { level },
        }
    }

    pub fn after_list_level(&mut self, level: u8, to: u8, reply: Reply) -> Head
        ensures left { left_of result self.new
            ≡ plans.unless_refused reply
            (plans.halt_all (plans.to_stop reply)
            (plans.ask (Op.MoveLevel level) (after_move_down level to))) }
    {
        if reply.is_refusal() {
            return Head::Stop { end: End::Refused };
        }
        self.kept.put_bundles(reply.into_ids());
        self.stop_at_level(level, to)
    }

    /// The next bundle above the level is stopped, or, where none is left, the active level moves there.
    pub fn stop_at_level(&mut self, level: u8, to: u8) -> Head
        ensures left { left_of result self.new ≡ stopping_level level to self.old.kept }
    {
        match self.kept.next_bundle() {
            Some(bundle) => self.halt(Target::Id(bundle), true, AfterStop::Descend { level, to }),
            None => {
                self.at = At::MoveDown { level, to };
                Head::Ask {
                    op: Op::MoveLevel { to: level },
                }
            }
        }
    }

    pub fn after_move_down(&mut self, level: u8, to: u8, reply: &Reply) -> Head
        ensures left { left_of result self.new ≡ after_move_down level to reply.now }
    {
        if reply.is_refusal() {
            self.end_level()
        } else {
            self.descend(level, to)
        }
    }
}
