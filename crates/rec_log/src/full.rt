/// The buffer holds as many entries as it can.
#[derive(Clone, Copy, Debug, PartialEq, Eq)]
pub struct Full;
