//! `Frame`: what is at the front and at the end of each line on a flush.
use std::marker::Model;

/// How the lines on a flush are framed.
#[derive(Drop)]
pub(crate) struct Frame<'f> {
    /// The time at the front of each line, in milliseconds.
    pub(crate) time: u64,
    /// What ends each line.
    pub(crate) ending: &'f str,
}

impl<'f> Model for Frame<'f> {
    ghost use Rattle.am_timeline.specs.Timeline.{FrameData};

    ghost Value = { FrameData };

    ghost view = { λ f.
        record {
          time = f.time;
          ending = f.ending.now;
        } };
}
