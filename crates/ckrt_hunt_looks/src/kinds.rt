//! What looks find: pairs of places that race, cycles of locks, and errors of memory.
ghost use Rattle.std.specs.Prelude.{◌≡◌, OnOk};
ghost use Rattle.std.specs.Io.KnownBytes.{Appends};
ghost use Rattle.ckrt_hunt_looks.specs.Kinds.{cycle_kind, error_kind, link_text, pair_kind};

use crate::notable::Notable;
use ckrt_look_calls::write_hex;
use ckrt_look_clocks::{Inversion, Pair};
use ckrt_look_heap::{Finding, write_error};
use ckrt_look_races::{write_both, write_cycle};
use std::io::{Result, Write};

impl Notable for Pair {
    ghost kind = { pair_kind };

    fn is_at(&self, known: &Pair) -> bool {
        known.first.pc == self.first.pc && known.second.pc == self.second.pc
            || known.first.pc == self.second.pc && known.second.pc == self.first.pc
    }

    fn name() -> &'static [u8] {
        b"race "
    }

    fn others() -> &'static [u8] {
        b"other races: in "
    }

    fn none() -> &'static [u8] {
        b"no races in "
    }

    #[tactic(auto, using(ckrt_hunt_schedules::proofs::AppendLemmas::appends_both))]
    fn write_line<W: Write>(&self, out: &mut W) -> Result<()> {
        write_both(out, self)?;
        out.write_all(b"\n")
    }
}

impl Notable for Inversion {
    ghost kind = { cycle_kind };

    fn is_at(&self, known: &Inversion) -> bool {
        Inversion::is_at(self, known)
    }

    fn name() -> &'static [u8] {
        b"lock cycle "
    }

    fn others() -> &'static [u8] {
        b"other lock cycles: in "
    }

    fn none() -> &'static [u8] {
        b"no lock cycles in "
    }

    #[tactic(auto, using(ckrt_hunt_schedules::proofs::AppendLemmas::appends_both))]
    fn write_line<W: Write>(&self, out: &mut W) -> Result<()> {
        write_cycle(out, self)?;
        out.write_all(b"\n")
    }
}

/// The return address in x1, by which errors of one instruction are told apart.
#[tactic(auto, using(ckrt_hunt_schedules::proofs::AppendLemmas::appends_both))]
fn write_link<W: Write>(out: &mut W, link: u32) -> Result<()>
    ensures { OnOk result
        (Appends (W.contents out.old) (W.contents out.new) (link_text link)) }
{
    out.write_all(b", x1 ")?;
    write_hex(out, link)
}

impl Notable for Finding {
    ghost kind = { error_kind };

    fn is_at(&self, known: &Finding) -> bool {
        Finding::is_at(known, &self.access, &self.cell)
    }

    fn name() -> &'static [u8] {
        b"error "
    }

    fn others() -> &'static [u8] {
        b"other errors of memory: in "
    }

    fn none() -> &'static [u8] {
        b"no errors of memory in "
    }

    #[tactic(auto, using(ckrt_hunt_schedules::proofs::AppendLemmas::appends_both))]
    fn write_line<W: Write>(&self, out: &mut W) -> Result<()> {
        write_error(out, self)?;
        write_link(out, self.access.link)?;
        out.write_all(b"\n")
    }
}
