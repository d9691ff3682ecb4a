//! Laws of the shadow. Each is the contract of a function with an empty body.
ghost use Rattle.ckrt_look_heap.specs.Laws.{GivenBackBlocksAreTold, GivenBlocksAreUsed, OnlyErrorsAreTold, TheExampleIsTold};
ghost use Rattle.ckrt_look_heap.specs.Within.{NothingIsLeftOut, RoomForAllSuffices};

/// Whoever uses the bytes of a block that was given, and not given back, is told of no error.
pub fn given_blocks_are_used()
    ensures { GivenBlocksAreUsed }
{}

/// Whoever uses a word of a block that was given back is told of an error.
pub fn given_back_blocks_are_told()
    ensures { GivenBackBlocksAreTold }
{}

/// Each error that is told is one of what was done: a word was used that may not be, or a block given back where none begins, by what was
/// told of it then.
pub fn only_errors_are_told()
    ensures { OnlyErrorsAreTold }
{}

/// A block that is loaded once it was given back, and given back again, has two errors told of it, and no others.
pub fn example_is_told()
    ensures { TheExampleIsTold }
{}

/// Where the room isn't used up in the end, nothing was left out: it never was, and all is as with the whole shadow.
pub fn nothing_is_left_out()
    ensures { NothingIsLeftOut }
{}

/// A room for all parts of the memory isn't used up.
pub fn room_for_all_suffices()
    ensures { RoomForAllSuffices }
{}
