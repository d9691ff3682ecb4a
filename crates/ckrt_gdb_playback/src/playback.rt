//! A recorded run that is replayed once somebody moves.
ghost use Rattle.std.specs.Prelude.{◌≡◌, IfErr, IfOk, length};
ghost use Rattle.ckrt_gdb_playback.specs.Playback.{IsPlayable, history_of, state_of};

use crate::recorded::Recorded;
use ckrt_gdb_history::{History, HistoryFault, Position};
use ckrt_machine::Machine;

/// A recorded run. All its memory was taken with what was [`Recorded`].
#[derive(Drop)]
pub enum Playback {
    Unplayed(Recorded),
    Played(History),
}

impl Playback {
    /// The machine at the position.
    pub fn machine(&self) -> &Machine
        ensures { result.now.state ≡ state_of self.now }
    {
        match self {
            Playback::Unplayed(recorded) => recorded.machine(),
            Playback::Played(history) => history.machine(),
        }
    }

    /// Where it stands.
    pub fn position(&self) -> Position
        ensures { result ≡ (history_of self.now).position }
    {
        match self {
            Playback::Unplayed(_) => Position::at_event(0),
            Playback::Played(history) => history.position(),
        }
    }

    /// How many events it has.
    pub fn event_count(&self) -> usize
        ensures { result ≡ length (history_of self.now).events }
    {
        match self {
            Playback::Unplayed(recorded) => recorded.event_count(),
            Playback::Played(history) => history.events().len(),
        }
    }

    /// The history, replayed once.
    ///
    /// # Errors
    ///
    /// `Refused` exactly where an event isn't accepted at its turn, or the events don't come through the run's stage.
    pub fn played(self) -> Result<History, HistoryFault>
        ensures played { IfOk result (λ h. h ≡ history_of self) }
        ensures playable { IfOk result (λ _. IsPlayable self) }
        ensures refused { IfErr result (λ _. IsPlayable self → ⊥) }
    {
        match self {
            Playback::Unplayed(recorded) => recorded.play(),
            Playback::Played(history) => Ok(history),
        }
    }
}
