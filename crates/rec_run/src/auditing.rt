//! Who is shown the steps of the collector while a script is played and its heap settled.
ghost use Rattle.std.specs.Prelude.{◌≡◌, ℕ, List, [], None, Some, IfOk, IsSome};
ghost use Rattle.rec_audit.specs.Journal.{HasNoted};
ghost use Rattle.rec_run.specs.Headline.{heap_told};

use rec_audit::Audit;
use rec_script::Script;
use rec_word::Op;
use rec_world::{Watch, World};
use std::alloc::{AllocError as NoMemory, Global};

/// Notes each step that it is shown in an audit, if it has one. There is one type for both, so that the program has one player: with
/// a second watch the compiler makes calls of what has one caller now.
#[derive(Drop)]
pub struct Auditor {
    audit: Option<Audit>,
    /// How many steps it refused, up to the last value of a `u64`.
    refused: u64,
}

impl Auditor {
    /// One that notes nothing.
    pub fn without_audit() -> Auditor
        ensures { result.audit ≡ None }
    {
        Auditor {
            audit: None,
            refused: 0,
        }
    }

    /// One with the audit of a script's heap before its collector's first step.
    pub fn open(alloc: Global, script: &Script) -> Result<Auditor, NoMemory>
        ensures { IfOk result (λ auditor. (text : List ℕ) × (auditor.audit ≡ Some text) × HasNoted (heap_told script.now) [] text) }
    {
        let audit = Audit::open(
            alloc,
            script.slots(),
            script.fields(),
            script.registers(),
            u32::from(script.mutators()),
            1,
        )?;
        Ok(Auditor {
            audit: Some(audit),
            refused: 0,
        })
    }

    /// The journal of all steps that it noted. It is asked of an auditor that has an audit.
    pub fn into_text(self) -> Vec<u8>
        requires { IsSome self.audit }
        ensures { Some result.items ≡ self.audit }
    {
        match self.audit {
            Some(audit) => audit.into_text(),
            None => unreachable!(),
        }
    }
}

impl Watch for Auditor {
    ghost use Rattle.rec_run.specs.Audited.{GoesOn, none_noted, noted_then};

    ghost WasShown = { λ before shown after. GoesOn before.audit shown after.audit };

    ghost refused = { λ auditor. auditor.refused };

    #[inline(always)]
    fn watches(&self) -> bool {
        self.audit.is_some()
    }

    #[inline(always)]
    fn after(&mut self, world: &World, op: Op, word: u64) -> Result<(), NoMemory> {
        let Some(audit) = &mut self.audit else {
            return Ok(());
        };
        match audit.note(world.collector(), op, word) {
            Ok(()) => Ok(()),
            Err(error) => {
                self.refused = self.refused.saturating_add(1);
                Err(error)
            }
        }
    }

    ghost none_shown = { λ watch. none_noted watch.audit };

    ghost shown_then = { λ a b c first later x y. noted_then a.audit b.audit c.audit first later x y };
}
