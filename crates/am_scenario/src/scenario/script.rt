//! The answers to the attempts of a notice, and how they are read.
ghost use Rattle.std.specs.Prelude.{◌≡◌};
ghost use Rattle.am_scenario.specs.Scripts.{answer_to, at_once, sent_at};

use am_alerts::limits::MAX_DURATION;
use am_json::fault::InputFault;
use am_json::reader::{FromJson, Reader};
use am_pool::Sent;
use am_retry::Answer;

/// The answers to the attempts of one notice, in their order. The last one is that of all attempts
/// that follow.
#[derive(Drop)]
pub struct Script {
    pub ticket: u64,
    pub integration: u64,
    pub answers: Vec<ScriptedAnswer>,
}

/// The answer to an attempt.
#[derive(Clone, Copy)]
pub struct ScriptedAnswer {
    pub answer: Answer,
    /// How long the attempt takes, in milliseconds.
    pub takes: u64,
}

impl Script {
    /// The answer to the attempt of this number, from 1.
    pub fn answer_to(&self, attempt: u64) -> ScriptedAnswer
        ensures { result ≡ answer_to attempt self.now.answers.items }
    {
        let answers = self.answers.as_slice();
        match (
            answers.get(attempt.saturating_sub(1) as usize),
            answers.last(),
        ) {
            (Some(planned), _) | (None, Some(planned)) => *planned,
            (None, None) => ScriptedAnswer::at_once(),
        }
    }
}

impl ScriptedAnswer {
    /// Done, in no time.
    pub fn at_once() -> ScriptedAnswer
        ensures { result ≡ at_once }
    {
        ScriptedAnswer {
            answer: Answer::Done,
            takes: 0,
        }
    }

    /// How an attempt at `at` goes.
    pub fn sent_at(self, at: u64) -> Sent
        ensures { result ≡ sent_at at self }
    {
        Sent {
            answer: self.answer,
            ended: at.saturating_add(self.takes),
        }
    }
}

impl<'v> FromJson<'v> for Script {
    ghost use Rattle.std.specs.Prelude.{true};
    ghost use Rattle.am_scenario.specs.Decoding.{DecodesToScript};

    ghost decodes_to = { λ mode value script. DecodesToScript value script };

    ghost never_refused = { λ _. true };

    fn read(reader: &Reader<'v, '_>) -> Result<Script, InputFault> {
        let script = reader.object()?;
        Ok(Script {
            ticket: script.required("ticket")?.number()?,
            integration: script.required("integration")?.number()?,
            answers: script.required("script")?.list::<ScriptedAnswer>()?,
        })
    }
}

impl<'v> FromJson<'v> for ScriptedAnswer {
    ghost use Rattle.std.specs.Prelude.{true};
    ghost use Rattle.am_scenario.specs.Decoding.{DecodesToPlanned};

    ghost decodes_to = { λ mode value planned. DecodesToPlanned value planned };

    ghost never_refused = { λ _. true };

    fn read(reader: &Reader<'v, '_>) -> Result<ScriptedAnswer, InputFault> {
        let (word, takes) = reader.pair()?;
        let answer = Answer::read(&word)?;
        let takes = takes.number_up_to(MAX_DURATION)?;
        Ok(ScriptedAnswer { answer, takes })
    }
}
