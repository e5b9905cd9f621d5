//! When a dispatcher of a rehearsal runs: its start, and the time at which a reload or a restart
//! stops it.
ghost use Rattle.std.specs.Prelude.{◌≡◌};
ghost use Rattle.am_simulation.specs.Play.{whole};

/// Since when a dispatcher runs, and when it is stopped.
#[derive(Clone, Copy)]
pub struct Span {
    /// When it starts, in milliseconds from the start of the rehearsal.
    pub since: u64,
    /// When it is stopped, in milliseconds from the start of the rehearsal; none means that nothing
    /// stops it.
    ///
    /// An attempt that would end later ends then, without success and without another try. None
    /// begins from then on (`dispatch.Dispatcher.Stop`).
    pub cut: Option<u64>,
}

impl Span {
    /// Returns the span of a dispatcher that runs from the start, and isn't stopped.
    pub fn whole() -> Span
        ensures { result ≡ whole }
    {
        Span {
            since: 0,
            cut: None,
        }
    }
}
