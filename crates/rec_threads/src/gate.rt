//! What workers pass on their way.

/// What the workers of a drive pass: the worker of mutator `t` before each of its commands, numbered from 1, and the collector's
/// before each of its turns, numbered from 1. A gate may note the time, or hold a worker back.
pub trait Gate: Sync {
    fn pass(&self, mutator: u8, command: u32);

    fn turn(&self, n: u32);
}

/// A gate that lets everybody through.
#[derive(Clone, Copy, Debug, Drop)]
pub struct OpenGate;

impl Gate for OpenGate {
    fn pass(&self, _mutator: u8, _command: u32) {}

    fn turn(&self, _n: u32) {}
}
