//! Laws of what is seen and found. Each is the contract of a function with an empty body.
ghost use Rattle.ckrt_look_clocks.specs.Laws.{ClocksAreExact, KeptRacesAreFound, OnlyRacesAreFound, SeenBehindSeen, SeenByChains};
ghost use Rattle.ckrt_look_clocks.specs.Within.{NothingIsLeftOut, RoomForAllSuffices};

/// Of an orderly history clocks tell just what is seen: an access happens before what a thread does now where its clock says so.
pub fn clocks_are_exact()
    ensures { ClocksAreExact }
{}

/// Each pair that is found is of two accesses that race.
pub fn only_races_are_found()
    ensures { OnlyRacesAreFound }
{}

/// Each race of an access with one that the shadow keeps of its word is found, and stays found.
pub fn kept_races_are_found()
    ensures { KeptRacesAreFound }
{}

/// What a holder has seen is what chains of passes lead to.
pub fn seen_by_chains()
    ensures { SeenByChains }
{}

/// Who has seen an access has seen all that its thread had seen by then.
pub fn seen_behind_seen()
    ensures { SeenBehindSeen }
{}

/// Where the room isn't used up in the end, nothing was left out: it never was, and all is as with the whole shadow.
pub fn nothing_is_left_out()
    ensures { NothingIsLeftOut }
{}

/// A room for all parts of the memory isn't used up.
pub fn room_for_all_suffices()
    ensures { RoomForAllSuffices }
{}
