//! The line of a trace, which stands behind a text or a summary.

ghost use Rattle.std.specs.Prelude.{◌≡◌, ◌++◌, ◌∷◌, [], IfOk};
ghost use Rattle.rec_report.specs.Text.{trace_line};

use crate::{Text, line};
use std::alloc::{AllocError as NoMemory, Global};

impl Text {
    /// The text with one line more: how many slots a trace lists, and how many hold objects before settling and after it.
    pub fn with_trace(
        mut self,
        alloc: Global,
        traced: usize,
        before: u32,
        after: u32,
    ) -> Result<Text, NoMemory>
        ensures { IfOk result (λ text. text ≡ self ++ trace_line traced before after ∷ []) }
    {
        self.add(line::trace(alloc, traced, before, after)?)?;
        Ok(self)
    }
}
