//! What the value of a story plays to, and what is printed of it.
//!
//! - `run` reads a value, plays the rehearsal that it asks for, and writes the output. `fault` has how that ends without an output, or
//!   with an expectation that isn't met. `output_options` has what the command line wants to see.
//! - `render` prints what ran: lines, or a page (`picture`). `head` has the line between what two dispatchers did.
#![tactic(auto)]

pub mod fault;
pub mod head;
pub mod output_options;
mod picture;
pub mod render;
pub mod run;
