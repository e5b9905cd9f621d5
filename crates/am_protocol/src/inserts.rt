//! `InsertEnd`: what became of one of several inserts.
use crate::answer::{Answer, ToJson};
use crate::fault::LineFault;
use crate::reply::write_inserted;
use am_model::config::Config;
use am_model::record::Inserted;
use std::alloc::AllocError;

/// What became of one of several inserts. Its JSON is what a line of its own would be answered.
#[derive(Drop)]
pub enum InsertEnd {
    Made(Inserted),
    /// The value is refused, or the board refuses the insert.
    Refused(LineFault),
}

impl ToJson for InsertEnd {
    ghost use Rattle.am_protocol.specs.Inserts.{insert_end_tokens};

    ghost tokens = { λ config end. insert_end_tokens end };

    fn write(&self, _config: &Config, answer: &mut Answer) -> Result<(), AllocError> {
        match self {
            InsertEnd::Made(inserted) => write_inserted(inserted, answer),
            InsertEnd::Refused(fault) => fault.write(answer),
        }
    }
}
