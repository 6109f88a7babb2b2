//! The numbers that a heap is opened with, as C passes them.
ghost use Rattle.std.specs.Prelude.{◌≡◌};
ghost use Rattle.recycler_c.specs.Sizes.{config_of};

use rec_world::{Config, Policy};

/// What a caller wants of a heap. `include/recycler.h` has the range of each number.
#[repr(C)]
#[derive(Clone, Copy, Drop)]
pub struct Sizes {
    pub slots: u32,
    pub fields: u32,
    pub registers: u32,
    pub mutators: u32,
    pub log_entries: u32,
    pub first_epoch: u32,
    pub least_roots: u32,
    pub most_postponed: u32,
}

/// The heap that is asked for. It is steady: registers that didn't change touch nothing.
pub fn config(sizes: &Sizes) -> Config
    ensures { result ≡ config_of sizes.now }
{
    Config {
        slots: sizes.slots,
        fields: sizes.fields,
        registers: sizes.registers,
        mutators: sizes.mutators,
        log_entries: sizes.log_entries,
        first_epoch: sizes.first_epoch,
        policy: Policy {
            steady: true,
            least_roots: sizes.least_roots,
            most_postponed: sizes.most_postponed,
        },
    }
}
