//! Worked rows, and the laws of edges, of escaped texts, of last entries and of names. Verifiers read them.
ghost use Rattle.am_timeline.specs.Edges.{EdgesAreOfAge};
ghost use Rattle.am_timeline.specs.Escaped.{CutIsContent, EscapedIsContent};
ghost use Rattle.am_timeline.specs.IntegrationName.{NamesFindPositions};
ghost use Rattle.am_timeline.specs.LastEntry.{LastEntriesAreRows};
ghost use Rattle.am_timeline.specs.Rows.{TextsAreShown};

/// States that texts are shown as they were computed by hand. Does nothing.
pub fn texts_are_shown()
    ensures { TextsAreShown }
{}

/// States that an escaped text has no `<`, `>` or quote, and `&` only as the start of an entity. Does nothing.
pub fn escaped_text_is_content()
    ensures whole { EscapedIsContent }
    ensures cut { CutIsContent }
{}

/// States that the last entry of a group and an integration expires when their row of the log does, while there is one. Does nothing.
pub fn last_entries_are_rows()
    ensures { LastEntriesAreRows }
{}

/// States that a flush is on the edge for an integration exactly if its entry is as old as `repeat_interval`. Does nothing.
pub fn edges_are_of_age()
    ensures { EdgesAreOfAge }
{}

/// States that the kind and the index in the name of an integration find its position among those of its receiver. Does nothing.
pub fn names_find_positions()
    ensures { NamesFindPositions }
{}
