//! `OutputOptions`: what the command line wants to see of a rehearsal, and the seed for its hashes.
use am_alerts::text::Text;
use am_seed::Seed;
use am_timeline::filtered::Filter;

/// What the command line wants to see of a rehearsal, besides the output that it names, and the seed for its hashes.
#[derive(Drop)]
pub struct OutputOptions {
    /// The groups whose lines are printed.
    pub filter: Filter,
    /// Whether the flushes are left out that say the same as the one before of their group.
    pub changes: bool,
    /// Whether a report on the expectations is made, as XML of JUnit.
    pub junit: bool,
    /// What the story is called on a page: the name of its file.
    pub story: Text,
    /// The file of the configuration that takes the place of the story's own.
    pub config: Option<Text>,
    /// What the hashes of the rehearsal start from. No output depends on it.
    pub seed: Seed,
}
