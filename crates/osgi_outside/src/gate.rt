//! Places in a run at which a test can hold a lane.

use std::sync::Wait;
use std::thread::Threads;

/// Where a lane stands when it comes to a gate.
#[derive(Clone, Copy, PartialEq, Eq)]
pub enum Point {
    /// Before a call of the framework.
    BeforeCall,
    /// After a call of the framework.
    AfterCall,
    /// At the beginning of a section of a script.
    InSection,
}

/// What each lane comes to at each of these points. Nothing is known of what it does there, and it may wait.
pub trait Gate {
    fn at<R: Threads + Wait + Sync>(&self, rt: &R, lane: u32, point: Point);
}

/// A gate that holds nobody.
#[derive(Clone, Copy, PartialEq, Eq)]
pub struct OpenGate;

impl Gate for OpenGate {
    fn at<R: Threads + Wait + Sync>(&self, _rt: &R, _lane: u32, _point: Point) {}
}
