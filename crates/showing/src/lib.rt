// The show program as a function: from the bytes of its input to the bytes that it prints (01, "Leaves to try"); and how a program takes in its input.
#![tactic(auto)]

mod filling;
mod input;
mod printing;
mod reading;
mod rows;

pub use filling::read_full;
pub use printing::show;
