//! `LogKey`: a group and an integration, by which the log finds a row.

/// What a row of the log is about: one integration of one group's receiver.
///
/// Two keys are equal where the groups are equal by the group's own `==` and the integrations are the same.
#[derive(Debug, Drop, PartialEq, Eq, Hash)]
pub struct LogKey<G> {
    /// The group.
    pub group: G,
    /// The integration's position in the receiver.
    pub integration: u32,
}
