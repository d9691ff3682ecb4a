//! The states that a disk has been in. Only clauses read them, so they take no memory.
ghost use Rattle.std.specs.Prelude.{◌≡◌, List, [], ◌∷◌};
ghost use Rattle.std.specs.Borrow.{ftrue};

use std::marker::{Model, PhantomData};

/// States of type `S`, the newest first. It takes no byte, and its functions do nothing at run time.
pub struct History<S> {
    of: PhantomData<S>,
    pub ghost states: { List S },
}

impl<S> Model for History<S> {
    ghost also_owns = { λ _. ftrue };
}

// It holds no state, so it may be dropped whatever its states are.
impl<S> Drop for History<S> {
    fn drop(self) {
        let History { of: _ } = self;
    }
}

impl<S> History<S> {
    /// No state yet.
    pub fn new() -> History<S>
        ensures { result.states ≡ [] }
    {
        History { of: PhantomData }
    }

    /// One state more.
    pub fn with(&self, state: &S) -> History<S>
        ensures { result.states ≡ state.now ∷ self.now.states }
    {
        History { of: PhantomData }
    }
}

/// It takes no memory.
const _: () = prove!(std::mem::size_of::<History<u8>>() == 0);
