//! Checking a journal, a line at a time.

ghost use Rattle.std.specs.Prelude.{◌≡◌, ◌≤◌, [], length, Ok, IfOk};
ghost use Rattle.rec_model.specs.declared.limits.TheConstants.{MOST_BYTES};
ghost use Rattle.rec_audit.specs.Checkers.{IsReady, Knows};
ghost use Rattle.rec_audit.specs.Verdicts.{IsVerdict};

use crate::checker::Checker;
use crate::verdict::{Rule, Verdict};
use rec_model::limits::MOST_BYTES;
use std::alloc::{AllocError as NoMemory, Global};

/// What is to be said of a journal, whoever wrote it. Its lines are told in `docs/AUDIT.md`.
pub fn check(alloc: Global, audit: &[u8]) -> Result<Verdict, NoMemory>
    // Yes only of a journal in form, none of whose lines is at fault: no member of a set that was given up is on a path of
    // references from a root there. No with the first line at fault, and the first rule that fits.
    ensures { IfOk result (IsVerdict audit.now) }
{
    if audit.len() > MOST_BYTES {
        return Ok(Verdict::No {
            line: 0,
            rule: Rule::Long,
        });
    }
    let mut checker = Checker::open(alloc)?;
    let mut numbers = Vec::new(alloc);
    let verdict = take_lines(&mut checker, &mut numbers, audit);
    drop((checker, numbers));
    verdict
}

/// Takes line after line, up to one that is at fault or to the end.
fn take_lines(
    checker: &mut Checker,
    numbers: &mut Vec<u64>,
    audit: &[u8],
) -> Result<Verdict, NoMemory>
    requires few { length audit.now ≤ MOST_BYTES }
    requires ready { IsReady checker.old }
    requires knows { Knows [] checker.old }
    requires none { checker.old.sets ≡ 0 }
    ensures { IfOk result (IsVerdict audit.now) }
{
    let mut rest = audit;
    let mut line: u32 = 0;
    while !rest.is_empty() {
        line += 1;
        match checker.take(numbers, rest)? {
            Ok(behind) => rest = behind,
            Err(rule) => return Ok(Verdict::No { line, rule }),
        }
    }
    match checker.close() {
        Some(sets) => Ok(Verdict::Yes { sets }),
        None => Ok(Verdict::No {
            line: line + 1,
            rule: Rule::Form,
        }),
    }
}
