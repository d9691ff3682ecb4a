//! A look at what the last step did.
ghost use Rattle.std.specs.Prelude.{◌≡◌, ◌≤◌, ◌↔◌, IsTrue};
ghost use Rattle.ckrt_gdb_history.specs.Stops.{HasMet, widths};

use crate::history::History;
use crate::stop::Stops;

impl History {
    /// Whether the step that led here met a watch. The machine goes back by that step and on again.
    pub fn has_met(&mut self, stops: &Stops) -> bool
        requires { widths stops.now.watches.items ≤ 256 }
        ensures history { self.new ≡ self.old }
        ensures met { IsTrue result
            ↔ HasMet stops.now.watches.items self.old.position self.old.events self.old.start }
    {
        let here = self.position();
        if here.events == 0 && here.steps == 0 {
            return false;
        }
        let bytes = self.watched(stops);
        self.step_back();
        let before = self.watched(stops);
        let has_accessed = self.accesses(stops);
        self.go_to(here);
        has_accessed || before.as_slice() != bytes.as_slice()
    }
}
