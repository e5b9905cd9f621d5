//! Configuration files in YAML, read as JSON values: what YAML's core schema and go-yaml both make of a file, or a
//! refusal with its line and column. And where in the text a value is.
#![tactic(auto)]

mod anchors;
mod block;
mod block_scalar;
mod block_text;
mod bytes;
mod content;
mod cursor;
pub mod document;
mod escapes;
pub mod fault;
mod flow;
mod key;
pub mod locate;
pub mod location;
mod measure;
mod members;
mod merges;
pub mod parser;
mod path;
mod plain;
mod quoted;
pub mod reader;
mod resolve;
mod rows;
mod scalars;
mod spelling;
mod unclosed;
