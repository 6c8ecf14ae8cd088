//! What a gate is, and the one that is open.
use std::sync::Wait;

/// Where a worker passes before it handles a job. Both calls may wait. They have no clause: a gate decides when a job is handled, and
/// never what comes of it.
pub trait Gate {
    /// Returns when the job of this device and serial may be handled.
    fn pass<R: Wait>(&self, rt: &R, device: u32, serial: u64);

    /// Says that the job of this device and serial was responded to.
    fn answered<R: Wait>(&self, rt: &R, device: u32, serial: u64);
}

/// A gate that holds no job.
#[derive(Drop)]
pub struct OpenGate;

impl Gate for OpenGate {
    fn pass<R: Wait>(&self, _rt: &R, _device: u32, _serial: u64) {}

    fn answered<R: Wait>(&self, _rt: &R, _device: u32, _serial: u64) {}
}
