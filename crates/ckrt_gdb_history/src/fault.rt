//! Why there is no history.

use thiserror::Error;

/// Why there is no history.
#[derive(Clone, Copy, Debug, Drop, PartialEq, Eq, Error)]
pub enum HistoryFault {
    /// An event isn't accepted at its turn.
    #[error("Refused: an event of the history isn't accepted at its turn")]
    Refused,
}
