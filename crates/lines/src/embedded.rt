// A tree that is embedded, as the lines are printed from it.

// The pairs that join n sinks; U and V of each node's place, and the node's wire; and the total of the wires.
#[derive(Clone, Copy)]
pub struct Embedded<'a> {
    pub n: usize,
    pub js: &'a [u16],
    pub us: &'a [i32],
    pub vs: &'a [i32],
    pub ws: &'a [u32],
    pub total: u32,
}
