//! What the two tests say of a set.
ghost use Rattle.std.specs.Prelude.{◌≡◌, ◌<◌, length};
ghost use Rattle.rec_collector.specs.Testing.{verdict_of};

use rec_counts::Counts;
use rec_sigma::{delta, sigma};

/// What the two tests say of a set.
#[derive(Clone, Copy)]
pub(crate) enum Verdict {
    /// It passes both.
    Passed,
    /// It fails the Delta test: not every member is Orange any more.
    Touched,
    /// It passes the Delta test and fails the Sigma test: a member has references from outside.
    Held,
}

/// Tests set `set`: Delta first.
pub(crate) fn judge(counts: &Counts, set: u16) -> Verdict
    requires { set < length counts.now.sets }
    ensures { result ≡ verdict_of counts.now set }
{
    if !delta(counts, set) {
        Verdict::Touched
    } else if !sigma(counts, set) {
        Verdict::Held
    } else {
        Verdict::Passed
    }
}
