// An op as its parts: its kind, and the values of its fields in the order of a plan block.
#![tactic(auto)]

mod apart; // apart.rt: an op taken apart
mod curves; // curves.rt: the numbers of the curves
mod together; // together.rt: an op put together from its parts

pub use apart::{layout_of, parts_of};
pub use curves::{curve_number, curve_numbered, gamma};
use op::Curve;
pub use together::op_by;

// What stands in a field.
#[derive(Clone, Copy, Debug, PartialEq)]
pub enum Value {
    Float(f32),
    Flag(bool),
    Curve(Curve),
}

#[derive(Clone, Copy, Debug, PartialEq)]
pub struct Cell(pub Value);

// The kind of an op and its values, nine at most; the cells past the count hold zero. Kept as a number and an array with a count: the bytes of a
// plan block are these, every number has an answer (`layout_of`, `op_by`), and nothing here is on the heap.
#[derive(Clone, Copy, Debug, PartialEq)]
pub struct Parts {
    pub kind: u8,
    pub count: usize,
    pub cells: [Cell; 9],
}
