use r3_value::{Txt, Val};

/// Where a body is: the bound names with their values, the newest last, what it acts on, and the
/// units left.
#[derive(Drop)]
pub struct Place<S> {
    pub names: Vec<(Txt, Val)>,
    pub state: S,
    pub units: u32,
}
