//! `Session`: a board, and the tickets of its open flushes.
//!
//! `calls` has what it does.
ghost use Rattle.std.specs.Prelude.{◌≡◌, [], ◌∷◌, IsTrue};
ghost use Rattle.am_session.specs.Ticket.{are_rising, numbers};
ghost use Rattle.am_session.specs.declared.ticket.TheConstants.{BOARD_ID};

mod calls;

use crate::route_names::RouteNames;
use crate::ticket::BOARD_ID;
use am_board::board::Board;
use am_board::own_ticket::OwnTicket;
use am_seed::Seed;
use std::collections::VecDeque;

/// A board, and the tickets of its open flushes in the order of their begins.
///
/// A ticket can't be let go: `close` takes a session apart.
pub struct Session {
    board: Board,
    tickets: VecDeque<OwnTicket<BOARD_ID>>,
    /// Whether the numbers of the tickets rise, as those of one board do. Then a ticket is found by halves. No proof relies on
    /// how a board numbers its flushes.
    is_rising: bool,
    /// The routes of the board by their names.
    names: RouteNames,
    /// What the hashes of its boards start from.
    seed: Seed,
    ghost ours: { board.id ≡ BOARD_ID },
    ghost named: { names ≡ board.config.routes ∷ [] },
    ghost rising: { IsTrue is_rising → IsTrue (are_rising (numbers tickets.items)) },
}
