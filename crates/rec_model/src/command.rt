ghost use Rattle.std.specs.Prelude.{◌↔◌, IsTrue};
ghost use Rattle.rec_model.specs.Operands.{HasOperands};

/// What a mutator asks of the heap. Registers are numbered from 0, and so are the fields of an object.
#[derive(Clone, Copy, Debug, PartialEq, Eq)]
pub enum Cmd {
    /// Make an object with this label and null fields, named by `reg`.
    New { reg: u8, label: u32 },
    /// Make a leaf with this label, an object whose fields are null for good, named by `reg`.
    Leaf { reg: u8, label: u32 },
    /// Let `reg` be null.
    Null { reg: u8 },
    /// Let `dst` name what `src` names, null too.
    Copy { dst: u8, src: u8 },
    /// Let `dst` name what the field of the object in `src` leads to.
    Get { dst: u8, src: u8, field: u8 },
    /// Let the field of the object in `src` lead to what `val` names, null too.
    Put { src: u8, field: u8, val: u8 },
    /// Tell the label of the object in `reg`.
    Value { reg: u8 },
    /// Tell whether both registers name one object, or both are null.
    Same { a: u8, b: u8 },
    /// Let every register be null, and ask for nothing more.
    Leave,
    /// Let no collection wait for the mutator until it asks to unpark. No heap carries this out yet.
    Park,
    /// Go on behind `Park`. No heap carries this out yet.
    Unpark,
}

impl Cmd {
    /// Whether the registers and the field that it names are there, where there are so many. A heap carries out neither `Park` nor
    /// `Unpark`, so nothing is there for these.
    #[inline(always)]
    pub fn has_operands(&self, registers: usize, fields: usize) -> bool
        ensures { IsTrue result ↔ HasOperands registers fields self.now }
    {
        match *self {
            Cmd::New { reg, .. } | Cmd::Leaf { reg, .. } | Cmd::Null { reg } | Cmd::Value { reg } =>
                usize::from(reg) < registers,
            Cmd::Copy { dst: a, src: b } | Cmd::Same { a, b } => usize::from(a) < registers
                && usize::from(b) < registers,
            Cmd::Get {
                dst: a,
                src: b,
                field,
            }
            | Cmd::Put {
                src: a,
                field,
                val: b,
            } => usize::from(a) < registers
                && usize::from(b) < registers
                && usize::from(field) < fields,
            Cmd::Leave => true,
            Cmd::Park | Cmd::Unpark => false,
        }
    }
}
