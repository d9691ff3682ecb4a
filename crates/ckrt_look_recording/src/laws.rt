//! Laws of what an image has recorded. Each is the contract of a function with an empty body.
ghost use Rattle.ckrt_look_recording.specs.Recording.{RecordedLeads, RecordedOnce};

/// Each event that an image has recorded is accepted at its turn, and the plain fold of all of them leads to the state that
/// the image recovers to.
pub fn recordings_lead_on()
    ensures { RecordedLeads }
{}

/// An image has one thing recorded only.
pub fn recordings_are_one()
    ensures { RecordedOnce }
{}
