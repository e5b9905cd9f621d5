//! `Progress`: a line on standard error that counts simulated time while a long run goes on.
use am_command_line::durations::push_duration;
use am_terms::watch::Watch;
use std::time::Clock;

/// After how many steps the clock is looked at.
const STEPS: u32 = 256;

/// Prints how far a rehearsal is once a second: a line that the next one replaces.
#[derive(Drop)]
pub struct Progress<'r, R> {
    rt: &'r R,
    /// The second of the system's clock behind which a line is due; none where no line is printed.
    last: Option<u64>,
    /// How many steps there were since the clock was looked at.
    steps: u32,
    /// Whether a line is there.
    is_shown: bool,
}

impl<'r, R: Clock + Eprint + AllocGlobal> Progress<'r, R> {
    /// Returns the progress of a run that begins now. It is printed where standard error is a terminal.
    pub fn begin(rt: &'r R, is_terminal: bool) -> Progress<'r, R> {
        let now = second_of(rt);
        Progress {
            rt,
            last: now.filter(|_now| is_terminal),
            steps: 0,
            is_shown: false,
        }
    }

    /// Prints the simulated time, if a second has gone by since the last line.
    fn print(&mut self, last: u64, clock: u64) {
        let Some(now) = second_of(self.rt) else {
            return;
        };
        if now.saturating_sub(last) < 2 && !(self.is_shown && now > last) {
            return;
        }
        let mut simulated = String::new(self.rt.alloc());
        if push_duration(clock, &mut simulated).is_ok() {
            let _ = eprint!(self.rt; "\rsimulated: {simulated}\u{1b}[K");
            self.is_shown = true;
        }
        self.last = Some(now);
    }
}

impl<'r, R: Clock + Eprint + AllocGlobal> Watch for Progress<'r, R> {
    fn note(&mut self, clock: u64) {
        if let Some(last) = self.last {
            self.steps = self.steps.saturating_add(1);
            if self.steps >= STEPS {
                self.steps = 0;
                self.print(last, clock);
            }
        }
    }

    fn end(&mut self) {
        if self.is_shown {
            let _ = eprint!(self.rt; "\r\u{1b}[K");
            self.is_shown = false;
        }
    }
}

/// Returns the second of the system's clock, if it has one.
fn second_of<R: Clock>(rt: &R) -> Option<u64> {
    match rt.monotonic() {
        Ok(now) => Some(now.as_secs()),
        Err(_) => None,
    }
}
