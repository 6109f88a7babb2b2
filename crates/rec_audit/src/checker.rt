//! What the checker keeps of the lines that it has read, and what it says of the next one.

ghost use Rattle.std.specs.Prelude.{◌≡◌, ◌+◌, ◌<◌, ◌≤◌, ◌++◌, ◌∷◌, [], List, if◌then◌else◌, length, IfOk, IfErr, IfSome, IfNone, OnOk};
ghost use Rattle.rec_model.specs.declared.limits.TheConstants.{MOST_BYTES};
ghost use Rattle.rec_audit.specs.Lines.{Line};
ghost use Rattle.rec_audit.specs.Form.{MayStand, Stand, behind, form_of};
ghost use Rattle.rec_audit.specs.Graph.{is_free};
ghost use Rattle.rec_audit.specs.Graphs.{IsGraphOf, IsSized, TellNothing, slots_of};
ghost use Rattle.rec_audit.specs.Verdicts.{HasFault, IsClean, IsFaultBy};
ghost use Rattle.rec_audit.specs.Checkers.{IsReady, Knows, Takes};
ghost use Rattle.rec_audit.specs.declared.form.Stage.TheVariants as stages;

use crate::form::{Form, Heap, Stage};
use crate::graph::Graph;
use crate::kind::Kind;
use crate::reading::read_line;
use crate::verdict::Rule;
use std::alloc::{AllocError, Global};

/// The heap before its line is read.
const NO_HEAP: Heap = Heap {
    slots: 0,
    fields: 0,
    registers: 0,
    mutators: 0,
    first: 0,
};

/// What the checker keeps of the lines that it has read.
#[derive(Drop)]
pub struct Checker {
    pub alloc: Global,
    pub form: Form,
    pub graph: Graph,
    /// How many sets were given up.
    pub sets: u32,
}

/// How many sets a line of this kind gives up.
fn sets_in(kind: Kind) -> u32
    ensures { result ≡ (if is_free kind then 1 else 0) }
{
    match kind {
        Kind::Free => 1,
        _ => 0,
    }
}

/// Makes a graph that of a heap with so many slots, of which nothing was told.
fn renew(alloc: Global, graph: &mut Graph, slots: u16) -> Result<(), AllocError>
    ensures sized { OnOk result (IsSized graph.new) }
    ensures size { OnOk result (slots_of graph.new ≡ slots) }
    ensures graph { OnOk result ((lines : List Line) → TellNothing lines slots → IsGraphOf lines graph.new) }
{
    *graph = Graph::open(alloc, slots)?;
    Ok(())
}

/// Tells a graph of a line that may stand.
fn tell(
    alloc: Global,
    graph: &mut Graph,
    form: Form,
    kind: Kind,
    numbers: &[u64],
) -> Result<(), AllocError>
    requires sized { IsSized graph.old }
    requires size { slots_of graph.old ≡ form.heap.slots }
    requires stands { MayStand form (record { kind = kind; numbers = numbers.now }) }
    ensures sized { OnOk result (IsSized graph.new) }
    ensures size { OnOk result (slots_of graph.new ≡ (behind form (record { kind = kind; numbers = numbers.now })).heap.slots) }
    ensures graph { OnOk result ((lines : List Line) → Stand lines → form ≡ form_of lines → IsGraphOf lines graph.old
        → IsGraphOf (lines ++ record { kind = kind; numbers = numbers.now } ∷ []) graph.new) }
{
    match kind {
        Kind::Heap => renew(alloc, graph, numbers[0] as u16),
        Kind::Epoch => graph.begin_block(),
        Kind::Put => {
            let source = numbers[1] / u64::from(form.heap.fields);
            graph.put(source, numbers[2], numbers[3])
        }
        Kind::Born => graph.bear(numbers[1]),
        Kind::Snap => graph.hold(&numbers[1..]),
        Kind::Out => graph.take_out(numbers[1]),
        Kind::Sweep => graph.sweep(numbers[0]),
        Kind::Title | Kind::Free | Kind::End => Ok(()),
    }
}

/// The rule by which a line that may stand is at fault.
fn fault(
    graph: &mut Graph,
    form: Form,
    kind: Kind,
    numbers: &[u64],
) -> Result<Option<Rule>, AllocError>
    requires sized { IsSized graph.old }
    requires size { slots_of graph.old ≡ form.heap.slots }
    requires stands { MayStand form (record { kind = kind; numbers = numbers.now }) }
    ensures sized { IfOk result (λ _. IsSized graph.new) }
    ensures size { IfOk result (λ _. slots_of graph.new ≡ slots_of graph.old) }
    ensures graph { IfOk result (λ _. (lines : List Line) → IsGraphOf lines graph.old → IsGraphOf lines graph.new) }
    ensures found { IfOk result (λ found. IfSome found (λ rule. (lines : List Line) → IsGraphOf lines graph.old
        → IsFaultBy rule lines (record { kind = kind; numbers = numbers.now }))) }
    ensures none { IfOk result (λ found. IfNone found ((lines : List Line) → IsGraphOf lines graph.old
        → IsClean lines (record { kind = kind; numbers = numbers.now }))) }
{
    match kind {
        Kind::Put => {
            let new = numbers[2];
            if new % (1 << 16) == 0 {
                return Ok(None);
            }
            if graph.has_opened(new) {
                return Ok(Some(Rule::Stamp));
            }
            Ok(None)
        }
        Kind::Free => {
            let found = graph.reaches(numbers)?;
            if found {
                return Ok(Some(Rule::Reach));
            }
            Ok(None)
        }
        _ => Ok(None),
    }
}

impl Checker {
    /// Before the first line.
    pub fn open(alloc: Global) -> Result<Checker, AllocError>
        ensures ready { IfOk result IsReady }
        ensures knows { IfOk result (Knows []) }
        ensures none { IfOk result (λ checker. checker.sets ≡ 0) }
    {
        let graph = Graph::open(alloc, 0)?;
        Ok(Checker {
            alloc,
            form: Form {
                heap: NO_HEAP,
                stage: Stage::Title,
                next: 0,
            },
            graph,
            sets: 0,
        })
    }

    /// How many sets were given up, where the lines so far are a journal in form.
    pub fn close(&self) -> Option<u32>
        ensures whole { IfSome result (λ sets. (self.now.form.stage ≡ stages.Between) × (sets ≡ self.now.sets)) }
        ensures open { IfNone result (self.now.form.stage ≡ stages.Between → ⊥) }
    {
        if self.form.stage == Stage::Between {
            return Some(self.sets);
        }
        None
    }

    /// Keeps what a line tells that may stand and is not at fault.
    fn note(&mut self, kind: Kind, numbers: &[u64]) -> Result<(), AllocError>
        requires ready { IsReady self.old }
        requires few { self.old.sets < MOST_BYTES }
        requires stands { MayStand self.old.form (record { kind = kind; numbers = numbers.now }) }
        ensures ready { OnOk result (IsReady self.new) }
        ensures few { OnOk result (self.new.sets ≤ self.old.sets + 1) }
        ensures knows { OnOk result ((lines : List Line) → Knows lines self.old → IsClean lines (record { kind = kind; numbers = numbers.now })
            → Knows (lines ++ record { kind = kind; numbers = numbers.now } ∷ []) self.new) }
    {
        tell(self.alloc, &mut self.graph, self.form, kind, numbers)?;
        self.form = self.form.behind(kind, numbers);
        self.sets += sets_in(kind);
        Ok(())
    }

    /// Takes the line at the front of the bytes, and gives what is behind it; or the rule by which it is at fault. The line's
    /// numbers take the place of those that are there.
    pub fn take<'b>(
        &mut self,
        numbers: &mut Vec<u64>,
        bytes: &'b [u8],
    ) -> Result<Result<&'b [u8], Rule>, AllocError>
        requires ready { IsReady self.old }
        requires some { 0 < length bytes.now }
        requires few { self.old.sets + length bytes.now ≤ MOST_BYTES }
        ensures ready { IfOk result (λ taken. IfOk taken (λ rest. IsReady self.new)) }
        ensures less { IfOk result (λ taken. IfOk taken (λ rest. length rest.now < length bytes.now)) }
        ensures few { IfOk result (λ taken. IfOk taken (λ rest. self.new.sets + length rest.now ≤ MOST_BYTES)) }
        ensures taken { IfOk result (λ taken. IfOk taken (λ rest. (lines : List Line) → Knows lines self.old → Takes lines bytes.now rest.now self.new)) }
        ensures fault { IfOk result (λ taken. IfErr taken (λ rule. (lines : List Line) → Knows lines self.old → HasFault lines bytes.now rule)) }
    {
        let Some((kind, rest)) = read_line(numbers, bytes)? else {
            return Ok(Err(Rule::Form));
        };
        let line = numbers.as_slice();
        if !self.form.may_stand(kind, line) {
            return Ok(Err(Rule::Form));
        }
        if let Some(rule) = fault(&mut self.graph, self.form, kind, line)? {
            return Ok(Err(rule));
        }
        self.note(kind, line)?;
        Ok(Ok(rest))
    }
}
