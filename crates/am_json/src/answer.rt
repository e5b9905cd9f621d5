//! The answers to attempts in JSON.
use crate::fault::{FaultKind, InputFault};
use crate::reader::{FromJson, Reader};
use am_retry::Answer;

/// The word for an answer: `done`, `again` or `never`.
impl<'v> FromJson<'v> for Answer {
    ghost use Rattle.std.specs.Prelude.{true};
    ghost use Rattle.am_json.specs.Decoding.{IsAnswer};

    ghost decodes_to = { λ mode value answer. IsAnswer value answer };

    ghost never_refused = { λ _. true };

    fn read(reader: &Reader<'v, '_>) -> Result<Answer, InputFault> {
        match reader.text()? {
            "done" => Ok(Answer::Done),
            "again" => Ok(Answer::Again),
            "never" => Ok(Answer::Never),
            _ => Err(reader.refuse(FaultKind::BadValue)),
        }
    }
}
