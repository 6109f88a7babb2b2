//! What holds of every listener, as the contract of a function that does nothing.
ghost use Rattle.std.specs.Prelude.{◌≡◌, ℕ, ◌≤◌, ◌++◌, List, length, map, take, Option, Some};
ghost use Rattle.rec_notice.specs.Hearing.{HearsAll};
ghost use Rattle.rec_notice.specs.Ring.{heard_by, waits_for};
ghost use Rattle.rec_notice.specs.declared.listener.Listener.{Listener as Listeners};

/// The next answers of a listener, as many as there are labels that it knows to wait, are these labels in order; and so many more were
/// heard then.
pub fn waiting_labels_are_heard()
    ensures answers { (before after : Listeners) (answers : List (Option ℕ)) → HearsAll before answers after → length answers ≤ length (waits_for before) → answers ≡ map (λ label. Some label) (take (length answers) (waits_for before)) }
    ensures heard { (before after : Listeners) (answers : List (Option ℕ)) → HearsAll before answers after → length answers ≤ length (waits_for before) → heard_by after ≡ heard_by before ++ take (length answers) (waits_for before) }
{}
