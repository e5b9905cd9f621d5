//! Worked rows: the definitions, run on times that were computed by hand. Verifiers read them.
ghost use Rattle.am_terms.specs.Rows.{TimesAreCounted, TimesAreDated};

/// States that times are shown as they were computed by hand. Does nothing.
pub fn times_are_shown()
    ensures counted { TimesAreCounted }
    ensures dated { TimesAreDated }
{}
