//! The settings of an `alertmanager.yml` that are ignored.
use std::fmt;

/// What Alertmanager's configuration says besides what is read. Nothing of it changes which notice
/// is sent when, and to whom.
#[derive(Clone, Copy, PartialEq, Eq)]
pub struct IgnoredSettings {
    /// What holds for all integrations.
    pub global: bool,
    /// Where traces of requests are sent.
    pub tracing: bool,
    /// Files of templates.
    pub templates: bool,
    /// Times that no route names.
    pub time_intervals: bool,
    /// What integrations are set to, besides `send_resolved`.
    pub settings: bool,
}

impl IgnoredSettings {
    ghost use Rattle.std.specs.Prelude.{◌≡◌, ◌↔◌, IsFalse};
    ghost use Rattle.am_config.specs.IgnoredSettings.{nothing};

    /// Nothing is dropped.
    pub fn nothing() -> IgnoredSettings
        ensures { result ≡ nothing }
    {
        IgnoredSettings {
            global: false,
            tracing: false,
            templates: false,
            time_intervals: false,
            settings: false,
        }
    }

    /// Whether something is dropped.
    pub fn is_something(&self) -> bool
        ensures { IsFalse result ↔ (self.now ≡ nothing) }
    {
        self.global || self.tracing || self.templates || self.time_intervals || self.settings
    }
}

impl fmt::Display for IgnoredSettings {
    fn fmt<W: fmt::Write>(&self, f: &mut fmt::Formatter<W>) -> fmt::Result {
        let mut separator = "";
        for (is_dropped, name) in [
            (self.global, "global"),
            (self.tracing, "tracing"),
            (self.templates, "templates"),
            (self.time_intervals, "time intervals"),
            (self.settings, "settings of integrations"),
        ] {
            if is_dropped {
                f.write_str(separator)?;
                f.write_str(name)?;
                separator = ", ";
            }
        }
        Ok(())
    }
}
