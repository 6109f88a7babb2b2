/// The field that is exchanged next.
#[derive(Clone, Copy)]
pub struct At {
    /// The released slot at work.
    pub slot: u16,
    /// Its field, from 0.
    pub field: u8,
}
