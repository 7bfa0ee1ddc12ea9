// The words of a line by which the module is compared with the original: bit patterns in hexadecimal and whole numbers in decimal,
// read from a lent line and put into a lent answer. Reading never goes past the line and writing never past the answer.
#![tactic(auto)]

mod bits;
mod buffer;
mod fault;
mod words;

pub use bits::{Bits, Row, f32_bits, f32_of, f64_bits, f64_of};
pub use buffer::Buffer;
pub use fault::{Fault, FaultAt};
pub use words::{FromWord, Words};
