/// Where a reader passes a gate.
#[derive(Clone, Copy, Debug, PartialEq, Eq)]
pub enum GatePoint {
    /// It has claimed the job.
    Claimed,
    /// It has finished the job.
    Finished,
}

/// A place where a test may hold a reader for a while.
pub trait Gate {
    fn pass(&self, point: GatePoint, job: u32);
}

/// Lets every reader pass at once.
#[derive(Clone, Copy, Debug, PartialEq, Eq)]
pub struct OpenGate;

impl Gate for OpenGate {
    fn pass(&self, _point: GatePoint, _job: u32) {}
}
