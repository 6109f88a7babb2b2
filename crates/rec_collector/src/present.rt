//! Which mutators have left.
ghost use Rattle.std.specs.Prelude.{◌≡◌, ◌<◌, ◌≤◌, ◌^◌, length, not};
ghost use Rattle.std.specs.List.{position};
ghost use Rattle.rec_collector.specs.Present.{next_present as next_of_those};

/// The first mutator behind this one that hasn't left, if there is one. They are numbered from 1, and behind 0 are all.
#[inline(always)]
pub(crate) fn next_present(left: &[bool], mutator: u8) -> Option<u8>
    requires there { mutator ≤ length left.now }
    requires few { length left.now < 2 ^ 8 }
    ensures { result ≡ next_of_those left.now mutator }
{
    let passed = first_present(&left[usize::from(mutator)..])?;
    Some(mutator + passed as u8 + 1)
}

// How many have left before the first one that hasn't.
#[inline(always)]
fn first_present(left: &[bool]) -> Option<usize>
    ensures { result ≡ position not left.now }
{
    left.iter().position(|left| !left)
}
