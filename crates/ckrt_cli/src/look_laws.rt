//! Laws of looking back. Each is the contract of a function with an empty body.
ghost use Rattle.ckrt_cli.specs.Debugging.{LeadsSound, RecordsSound, RefusesDamaged, RefusesNone};

/// A session moves only over a sound run: each event is accepted at its turn, and the older part leads to the last checkpoint. Then its
/// run is what the image has recorded.
pub fn sound_runs_are_recorded()
    ensures { RecordsSound }
{}

/// A run is sound wherever the older part leads on and each event of the newer is accepted: `OlderDiffers` is told of no other.
pub fn runs_that_lead_on_are_sound()
    ensures { LeadsSound }
{}

/// Of what an image has recorded no event is refused, so that a session begins wherever the words ask, if memory is there.
pub fn recorded_events_are_accepted()
    ensures { RefusesNone }
{}

/// Where there is no older part and an event is refused at its turn, the content is damaged, and recovers to no state.
pub fn refused_events_are_damage()
    ensures { RefusesDamaged }
{}
