//! What workers tell one another.

ghost use Rattle.std.specs.Prelude.{◌≡◌, ◌⊎◌, ◌↔◌, ◌≤◌, IsSome, IsTrue, length};
ghost use Rattle.rec_model.specs.declared.limits.TheConstants.{MOST_TURNS};
ghost use Rattle.rec_threads.specs.Done.{HasMadeAll, HasTurned};

use crate::collecting::Collected;
use crate::worker::Worker;
use rec_script::Script;
use rec_table::Collector;
use std::snapshot::Snapshot;
use std::sync::atomic::{AtomicBool, AtomicU8, Ordering};
use std::sync::{OnceLock, OnceToken, Wait};

/// Every mutator's last command is answered. `Signals::all_done` alone makes one.
#[derive(Drop)]
pub struct AllDone(());

/// The collector's worker has ended. `Signals::over` alone makes one.
#[derive(Drop)]
pub struct Over(());

/// What the workers of one drive tell one another.
#[derive(Drop)]
pub struct Signals {
    // Whose commands the workers carry out.
    script: Snapshot<Script>,
    // Whether the workers begin. It is said once: that all of them are there, or that one is missing.
    orders: OnceLock<bool>,
    // How many mutators have had their last command answered.
    done: AtomicU8,
    // Whom the collector waits for; 0 is nobody.
    awaited: AtomicU8,
    // The collector's worker has ended.
    over: AtomicBool,
}

impl Signals {
    /// Nothing is told yet.
    pub fn new(script: &Script) -> Signals
        ensures { result.script.value ≡ script.now }
    {
        Signals {
            script: Snapshot::of(script),
            orders: OnceLock::new(),
            done: AtomicU8::new(0),
            awaited: AtomicU8::new(0),
            over: AtomicBool::new(false),
        }
    }

    /// Says whether all workers are there, unless it was said before. The token tells which was said.
    pub fn order<R: Wait>(&self, rt: &R, all_there: bool) -> OnceToken<'_, bool>
        ensures { result.of ≡ self.now.orders.id }
    {
        self.orders.init(rt, || all_there)
    }

    /// Waits until it is said whether the workers begin.
    pub fn await_orders<R: Wait>(&self, rt: &R) -> OnceToken<'_, bool>
        ensures { result.of ≡ self.now.orders.id }
    {
        let _ = self.orders.wait(rt);
        self.orders.init(rt, || false)
    }

    /// Whether the workers begin, as a token tells.
    pub fn begin<'a>(&'a self, orders: &OnceToken<'a, bool>) -> bool
        requires { orders.now.of ≡ self.now.orders.id }
        ensures { result ≡ orders.now.value }
    {
        *self.orders.value(orders)
    }

    /// One mutator more has had its last command answered: since it was so, its worker polled before each command that the script has
    /// for it, and carried it out.
    pub fn tell_done(&self, _was: &Snapshot<Worker>, _worker: &Worker)
        requires { HasMadeAll self.now.script.value _was.now.value _worker.now }
    {
        self.done.fetch_add(1, Ordering::SeqCst);
    }

    /// Tells whether all the script's mutators have had their last commands answered. It has so many.
    pub fn all_done(&self, mutators: u8) -> Option<AllDone>
        requires { mutators ≡ length self.now.script.value.commands }
    {
        if is_all(self.done.load(Ordering::SeqCst), mutators) {
            Some(AllDone(()))
        } else {
            None
        }
    }

    /// The collector waits for this mutator; 0 is nobody.
    pub fn tell_awaited(&self, mutator: u8) {
        self.awaited.store(mutator, Ordering::SeqCst);
    }

    /// Whether the collector waits for this mutator.
    pub fn is_awaited(&self, mutator: u8) -> bool {
        self.awaited.load(Ordering::SeqCst) == mutator
    }

    /// The collector's worker has ended: since it was so, it made turns until all was done, or until they were spent.
    pub fn tell_over(&self, _was: &Snapshot<Collector>, _collected: &Collected)
        requires turned { HasTurned _collected.now.turns _was.now.value _collected.now.collector }
        requires ended { IsSome _collected.now.all_done ⊎ (_collected.now.turns ≡ MOST_TURNS) }
    {
        self.over.store(true, Ordering::SeqCst);
    }

    /// Tells whether the collector's worker has ended.
    pub fn over(&self) -> Option<Over> {
        if self.over.load(Ordering::SeqCst) {
            Some(Over(()))
        } else {
            None
        }
    }
}

// Whether so many are all of these.
fn is_all(done: u8, mutators: u8) -> bool
    ensures { IsTrue result ↔ mutators ≤ done }
{
    done >= mutators
}
