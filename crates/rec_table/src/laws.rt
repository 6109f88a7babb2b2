//! What holds of every running heap, as the contract of a function that does nothing.

ghost use Rattle.std.specs.Prelude.{Option};
ghost use Rattle.atomic_table.specs.Table.{State};
ghost use Rattle.rec_log.specs.declared.contents.Contents.{Contents};
ghost use Rattle.rec_core.specs.Core.{Core};
ghost use Rattle.rec_table.specs.Operations.{AreMade, Runs, steps_in};
ghost use Rattle.rec_table.specs.declared.views.View.{View as Seen};

/// Each step of the run was made by one operation that a seat carried out: its actor's, of its kind, on its word, with the word
/// found. No two steps were made by one, and they come in the operations' order.
pub fn steps_are_made_by_operations()
    ensures { (key : Core) (s : State (Option Contents) Seen) (r : Runs key s) → AreMade key r.operations (steps_in key r.holds.run) }
{}
