//! What a begin came to.
use crate::limits::BOARD_ID;
use am_board::own_ticket::OwnTicket;

/// What a begin came to. A ticket must be spent.
pub(crate) enum Taken {
    /// No group is due.
    Nothing,
    /// A group was taken, and no integration is notified.
    Quiet,
    /// A flush was opened.
    Flush(OwnTicket<BOARD_ID>),
}
