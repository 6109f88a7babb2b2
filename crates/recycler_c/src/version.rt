//! Which library this is.

/// The version, as `recycler_version` tells it: 3.0.0. `RECYCLER_VERSION` of `include/recycler.h` is the same number.
pub const VERSION: u32 = 30_000;
