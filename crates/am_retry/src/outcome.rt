/// How an attempt went.
#[derive(Clone, Copy, Debug, PartialEq, Eq)]
pub enum Answer {
    /// The notice was taken.
    Done,
    /// It was not, and a later attempt may succeed.
    Again,
    /// It was not, and no later attempt can succeed.
    Never,
}

/// How the attempts of a notice ended.
#[derive(Clone, Copy, Debug, PartialEq, Eq)]
pub enum Outcome {
    /// The last attempt was answered by Done.
    Delivered,
    /// The last attempt was answered by Never.
    Refused,
    /// No attempt fits before the deadline any more.
    Expired,
    /// An attempt was due, and could not be made for lack of memory. [`crate::Retry`] never says
    /// so: only who makes the attempts can know.
    Starved,
}
