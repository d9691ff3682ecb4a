//! What the stub makes of a command of gdb's user, and what it tells.
ghost use Rattle.std.specs.Prelude.{◌≡◌, ◌⊎◌, ◌++◌, ℕ, List, IfErr, IfOk, IsErrOf, OnOk, decimal};
ghost use Rattle.ckrt_gdb_stub.specs.declared.fault.DebugFault.TheVariants.{OutOfMemory, Refused};
ghost use Rattle.ckrt_gdb_stub.specs.declared.monitor.TheConstants.{HELP};
ghost use Rattle.ckrt_events.specs.Bytes.{IsInRange};
ghost use Rattle.ckrt_events.specs.declared.command.LineFault.{LineFault};
ghost use Rattle.ckrt_events.specs.declared.event.Event.{Event};
ghost use Rattle.ckrt_gdb_stub.specs.Commands.{IsInRangeCommand, IsInRangeEvent};
ghost use Rattle.ckrt_gdb_stub.specs.Monitor.{Does, DoesAppend, Obeys, ObeysBy, count_of, count_text, end_text, event_text, gone_on_text, gone_text, limit_text, listing_text, made_text, misread_text, named_text, range_text, recorded_text, standing_line, steps_text, until_text, why_text};
ghost use Rattle.ckrt_gdb_playback.specs.Playback.{IsPlayable};

use crate::command::{Command, Misread, Place, command_of};
use crate::fault::DebugFault;
use crate::refusals::{push_append_fault, push_line_fault};
use crate::stub::Stub;
use ckrt_events::{Event, LineFault};
use ckrt_gdb_history::{AppendFault, Position};
use ckrt_gdb_playback::is_same;
use ckrt_inspect::write_listing;
use ckrt_schedule::ScheduleEnd;
use std::alloc::AllocError;

const HELP: &[u8] = b"monitor events      the events that there are, and where it stands\n\
monitor inspect     threads, locks and waits, as ckrt inspect lists them\n\
monitor goto K+S    stand where K events are done and S steps of the next; then: maintenance flush register-cache\n\
monitor goto end    stand behind the last event; then: maintenance flush register-cache\n\
monitor until K+S   continue or reverse-continue stop there\n\
monitor limit N     a continue makes N steps at most, by and large\n\
monitor fork        forget the events behind where it stands, in this session alone\n\
monitor event LINE  behind the last event make one more, such as run 0 100; then: maintenance flush register-cache\n\
monitor live N      make N more at most, as ckrt drive would go on; then: maintenance flush register-cache\n";

/// A text and a number in decimal.
fn push_counted(out: &mut Vec<u8>, text: &[u8], number: u64) -> Result<(), AllocError>
    ensures { OnOk result (out.new.items ≡ out.old.items ++ (text.now ++ decimal number)) }
{
    out.extend_from_slice(text)?;
    out.extend_from_slice(itoa::Buffer::new().format(number).as_bytes())
}

/// The steps of the next event, where it is inside one.
fn push_steps(out: &mut Vec<u8>, steps: u32) -> Result<(), AllocError>
    ensures { OnOk result (out.new.items ≡ out.old.items ++ steps_text steps) }
{
    if steps == 0 {
        return Ok(());
    }
    push_counted(out, b"+", u64::from(steps))
}

/// So many events of all, as a number of 64 bits.
fn count_of(first: u64, events: usize) -> u64
    ensures { result ≡ count_of first events }
{
    first.saturating_add(events as u64)
}

/// Where somebody stands, before that `first` events were done.
fn push_event(out: &mut Vec<u8>, first: u64, position: Position) -> Result<(), AllocError>
    ensures { OnOk result (out.new.items ≡ out.old.items ++ event_text first position) }
{
    push_counted(out, b"event ", count_of(first, position.events))?;
    push_steps(out, position.steps)
}

/// How many events are recorded, where not all are.
fn push_recorded(
    out: &mut Vec<u8>,
    first: u64,
    recorded: usize,
    events: usize,
) -> Result<(), AllocError>
    ensures { OnOk result (out.new.items ≡ out.old.items ++ recorded_text first recorded events) }
{
    if recorded < events {
        push_counted(out, b", recorded to ", count_of(first, recorded))
    } else {
        Ok(())
    }
}

/// Which events there are.
fn push_range(
    out: &mut Vec<u8>,
    first: u64,
    recorded: usize,
    events: usize,
) -> Result<(), AllocError>
    ensures { OnOk result (out.new.items ≡ out.old.items ++ range_text first recorded events) }
{
    push_counted(out, b", from ", first)?;
    push_counted(out, b" to ", count_of(first, events))?;
    push_recorded(out, first, recorded, events)?;
    out.extend_from_slice(b"\n")
}

/// By which motion it goes from one position to another.
fn until_text(here: Position, there: Position) -> &'static [u8]
    ensures { result.now ≡ until_text here there }
{
    if is_same(here, there) {
        b"here\n"
    } else if here.is_before(there) {
        b"continue goes there\n"
    } else {
        b"reverse-continue goes there\n"
    }
}

/// By which motion it goes to the position that was named, if there is one.
fn named_text(there: Option<Position>, here: Position) -> &'static [u8]
    ensures { result.now ≡ named_text there here }
{
    match there {
        Some(position) => until_text(here, position),
        None => b"no such position\n",
    }
}

/// The limit of steps.
fn push_limit(out: &mut Vec<u8>, limit: u32) -> Result<(), AllocError>
    ensures { OnOk result (out.new.items ≡ out.old.items ++ limit_text limit) }
{
    push_counted(out, b"limit ", u64::from(limit))?;
    out.extend_from_slice(b"\n")
}

/// Why there is no further event by turns.
fn push_end(out: &mut Vec<u8>, end: ScheduleEnd) -> Result<(), AllocError>
    ensures { OnOk result (out.new.items ≡ out.old.items ++ end_text end) }
{
    match end {
        ScheduleEnd::Ended => out.extend_from_slice(b"the program has ended\n"),
        ScheduleEnd::WaitsForInput => out.extend_from_slice(
            b"the program waits for input: monitor event in HEX gives it some\n",
        ),
        ScheduleEnd::Deadlock => out.extend_from_slice(b"no thread can go on\n"),
        ScheduleEnd::Enough => Ok(()),
    }
}

/// The same where an event may not have been appended.
fn push_why(out: &mut Vec<u8>, end: Result<ScheduleEnd, AppendFault>) -> Result<(), AllocError>
    ensures { OnOk result (out.new.items ≡ out.old.items ++ why_text end) }
{
    match end {
        Ok(end) => push_end(out, end),
        Err(fault) => push_append_fault(out, fault),
    }
}

/// How many events were made.
fn push_count(out: &mut Vec<u8>, made: usize) -> Result<(), AllocError>
    ensures { OnOk result (out.new.items ≡ out.old.items ++ count_text made) }
{
    push_counted(out, b"events made: ", made as u64)?;
    out.extend_from_slice(b"\n")
}

/// Why a text is no command, and what to do.
fn misread_text(why: Misread) -> &'static [u8]
    ensures { result.now ≡ misread_text why }
{
    match why {
        Misread::Position => {
            b"no position: it is K or K+S in decimal, as in monitor goto 767+2\n".as_slice()
        }
        Misread::Number => {
            b"no number from 1 to 4294967295, as in monitor limit 1000000\n".as_slice()
        }
        Misread::Superfluous => b"nothing goes behind this command\n".as_slice(),
        Misread::Name => b"no such command\n".as_slice(),
    }
}

/// The commands that there are.
fn push_help(out: &mut Vec<u8>) -> Result<(), AllocError>
    ensures { OnOk result (out.new.items ≡ out.old.items ++ HELP.now) }
{
    out.extend_from_slice(HELP)
}

/// Why a text is no command, and the commands that there are.
fn push_misread(out: &mut Vec<u8>, why: Misread) -> Result<(), AllocError>
    ensures { OnOk result (out.new.items ≡ out.old.items ++ (misread_text why ++ HELP.now)) }
{
    out.extend_from_slice(misread_text(why))?;
    push_help(out)
}

impl Stub {
    /// Where it stands.
    fn push_standing(&self, out: &mut Vec<u8>) -> Result<(), AllocError>
        ensures { OnOk result (out.new.items ≡ out.old.items ++ standing_line self.now) }
    {
        push_event(out, self.desk.first, self.playback.position())?;
        let count = self.playback.event_count();
        push_range(out, self.desk.first, self.desk.recorded, count)
    }

    /// Where it stands, and before that whether that isn't where it was to go.
    fn push_gone(&self, is_there: bool, out: &mut Vec<u8>) -> Result<(), AllocError>
        ensures { OnOk result (out.new.items ≡ out.old.items ++ gone_text is_there self.now) }
    {
        if !is_there {
            out.extend_from_slice(b"no such position\n")?;
        }
        self.push_standing(out)
    }

    /// The listing of `ckrt inspect`.
    fn push_listing(&self, out: &mut Vec<u8>) -> Result<(), AllocError>
        ensures { OnOk result (out.new.items ≡ out.old.items ++ listing_text self.now) }
    {
        let count = count_of(self.desk.first, self.playback.position().events);
        match write_listing(self.alloc, count, self.playback.machine(), out) {
            Ok(()) => Ok(()),
            Err(_) => Err(AllocError),
        }
    }

    /// Goes to a place, and tells where it stands then.
    fn go_to(self, place: Place, out: &mut Vec<u8>) -> Result<Stub, DebugFault>
        ensures does { IfOk result (λ stub. (console : List ℕ)
            × Does (Command.GoTo place) self stub console
            × (out.new.items ≡ out.old.items ++ console)) }
        ensures refused { IsErrOf result Refused → IsPlayable self.playback → ⊥ }
        ensures fault { IfErr result (λ e. (e ≡ Refused) ⊎ (e ≡ OutOfMemory)) }
    {
        let (stub, is_there) = self.reach(place.events, place.steps)?;
        stub.push_gone(is_there, out)?;
        Ok(stub)
    }

    /// Goes behind the last event, and tells where it stands then.
    fn go_to_end(self, out: &mut Vec<u8>) -> Result<Stub, DebugFault>
        ensures does { IfOk result (λ stub. (console : List ℕ)
            × Does Command.GoToEnd self stub console
            × (out.new.items ≡ out.old.items ++ console)) }
        ensures refused { IsErrOf result Refused → IsPlayable self.playback → ⊥ }
        ensures fault { IfErr result (λ e. (e ≡ Refused) ⊎ (e ≡ OutOfMemory)) }
    {
        let stub = self.reach_end()?;
        stub.push_standing(out)?;
        Ok(stub)
    }

    /// Motions end at a place from now on, if there is one, and it is told by which motion it goes there.
    fn stop_at(self, place: Place, out: &mut Vec<u8>) -> Result<Stub, DebugFault>
        ensures does { IfOk result (λ stub. (console : List ℕ)
            × Does (Command.Until place) self stub console
            × (out.new.items ≡ out.old.items ++ console)) }
        ensures refused { IsErrOf result Refused → IsPlayable self.playback → ⊥ }
        ensures fault { IfErr result (λ e. (e ≡ Refused) ⊎ (e ≡ OutOfMemory)) }
    {
        let (stub, there) = self.name(place.events, place.steps)?;
        out.extend_from_slice(named_text(there, stub.playback.position()))?;
        Ok(stub)
    }

    /// What becomes of an event that was to be made.
    fn push_made(&self, fault: Option<AppendFault>, out: &mut Vec<u8>) -> Result<(), AllocError>
        ensures { OnOk result (out.new.items ≡ out.old.items ++ made_text fault self.now) }
    {
        match fault {
            Some(fault) => push_append_fault(out, fault),
            None => self.push_standing(out),
        }
    }

    /// Forgets the events behind where it stands, and tells where that is.
    fn end_here(self, out: &mut Vec<u8>) -> Result<Stub, DebugFault>
        ensures does { IfOk result (λ stub. (console : List ℕ)
            × Does Command.Fork self stub console
            × (out.new.items ≡ out.old.items ++ console)) }
        ensures refused { IsErrOf result Refused → IsPlayable self.playback → ⊥ }
        ensures fault { IfErr result (λ e. (e ≡ Refused) ⊎ (e ≡ OutOfMemory)) }
    {
        let stub = self.fork()?;
        stub.push_standing(out)?;
        Ok(stub)
    }

    /// Makes one more event behind the last, and tells where it stands then, or why not.
    fn make(self, event: Event, out: &mut Vec<u8>) -> Result<Stub, DebugFault>
        requires { IsInRange event }
        ensures does { IfOk result (λ stub. (console : List ℕ)
            × DoesAppend (Ok event) self stub console
            × (out.new.items ≡ out.old.items ++ console)) }
        ensures refused { IsErrOf result Refused → IsPlayable self.playback → ⊥ }
        ensures fault { IfErr result (λ e. (e ≡ Refused) ⊎ (e ≡ OutOfMemory)) }
    {
        let (stub, fault) = self.append(event)?;
        stub.push_made(fault, out)?;
        Ok(stub)
    }

    /// Tells why a line has no event.
    fn refuse(self, fault: LineFault, out: &mut Vec<u8>) -> Result<Stub, DebugFault>
        ensures does { IfOk result (λ stub. (console : List ℕ)
            × DoesAppend (Err fault) self stub console
            × (out.new.items ≡ out.old.items ++ console)) }
        ensures fault { IfErr result (λ e. e ≡ OutOfMemory) }
    {
        push_line_fault(out, fault)?;
        Ok(self)
    }

    /// Makes one more event behind the last, if a line has one.
    fn make_by(self, event: Result<Event, LineFault>, out: &mut Vec<u8>) -> Result<Stub, DebugFault>
        requires { IsInRangeEvent event }
        ensures does { IfOk result (λ stub. (console : List ℕ)
            × DoesAppend event self stub console
            × (out.new.items ≡ out.old.items ++ console)) }
        ensures refused { IsErrOf result Refused → IsPlayable self.playback → ⊥ }
        ensures fault { IfErr result (λ e. (e ≡ Refused) ⊎ (e ≡ OutOfMemory)) }
    {
        match event {
            Ok(event) => self.make(event, out),
            Err(fault) => self.refuse(fault, out),
        }
    }

    /// How many events were made by turns, why there is no further one, and where it stands.
    fn push_gone_on(
        &self,
        made: usize,
        end: Result<ScheduleEnd, AppendFault>,
        out: &mut Vec<u8>,
    ) -> Result<(), AllocError>
        ensures { OnOk result
            (out.new.items ≡ out.old.items ++ gone_on_text made end self.now) }
    {
        push_count(out, made)?;
        push_why(out, end)?;
        self.push_standing(out)
    }

    /// Makes so many events at most behind the last, each the one that is next by turns, and tells how many, and why no more.
    fn go_on_by_turns(self, most: u32, out: &mut Vec<u8>) -> Result<Stub, DebugFault>
        ensures does { IfOk result (λ stub. (console : List ℕ)
            × Does (Command.Extend most) self stub console
            × (out.new.items ≡ out.old.items ++ console)) }
        ensures refused { IsErrOf result Refused → IsPlayable self.playback → ⊥ }
        ensures fault { IfErr result (λ e. (e ≡ Refused) ⊎ (e ≡ OutOfMemory)) }
    {
        let before = self.playback.event_count();
        let (stub, end) = self.extend(most)?;
        let made = stub.playback.event_count().saturating_sub(before);
        stub.push_gone_on(made, end, out)?;
        Ok(stub)
    }

    /// A motion makes so many steps at most.
    fn limit(self, limit: u32, out: &mut Vec<u8>) -> Result<Stub, DebugFault>
        ensures does { IfOk result (λ stub. (console : List ℕ)
            × Does (Command.Limit limit) self stub console
            × (out.new.items ≡ out.old.items ++ console)) }
        ensures fault { IfErr result (λ e. e ≡ OutOfMemory) }
    {
        push_limit(out, limit)?;
        let mut stub = self;
        stub.desk.bounds.limit = limit;
        Ok(stub)
    }

    /// Tells where it stands.
    fn tell_standing(self, out: &mut Vec<u8>) -> Result<Stub, DebugFault>
        ensures does { IfOk result (λ stub. (console : List ℕ)
            × Does Command.Events self stub console
            × (out.new.items ≡ out.old.items ++ console)) }
        ensures fault { IfErr result (λ e. e ≡ OutOfMemory) }
    {
        self.push_standing(out)?;
        Ok(self)
    }

    /// Tells the listing of `ckrt inspect`.
    fn tell_listing(self, out: &mut Vec<u8>) -> Result<Stub, DebugFault>
        ensures does { IfOk result (λ stub. (console : List ℕ)
            × Does Command.Inspect self stub console
            × (out.new.items ≡ out.old.items ++ console)) }
        ensures fault { IfErr result (λ e. e ≡ OutOfMemory) }
    {
        self.push_listing(out)?;
        Ok(self)
    }

    /// Tells the commands that there are.
    fn tell_help(self, out: &mut Vec<u8>) -> Result<Stub, DebugFault>
        ensures does { IfOk result (λ stub. (console : List ℕ)
            × Does Command.Help self stub console
            × (out.new.items ≡ out.old.items ++ console)) }
        ensures fault { IfErr result (λ e. e ≡ OutOfMemory) }
    {
        push_help(out)?;
        Ok(self)
    }

    /// Tells why a text is no command, and the commands that there are.
    fn tell_misread(self, why: Misread, out: &mut Vec<u8>) -> Result<Stub, DebugFault>
        ensures does { IfOk result (λ stub. (console : List ℕ)
            × ObeysBy (Err why) self stub console
            × (out.new.items ≡ out.old.items ++ console)) }
        ensures fault { IfErr result (λ e. e ≡ OutOfMemory) }
    {
        push_misread(out, why)?;
        Ok(self)
    }

    /// Does a command. What is told goes behind what is in `out`.
    fn perform(self, command: Command, out: &mut Vec<u8>) -> Result<Stub, DebugFault>
        requires { IsInRangeCommand command }
        ensures does { IfOk result (λ stub. (console : List ℕ)
            × Does command self stub console × (out.new.items ≡ out.old.items ++ console)) }
        ensures refused { IsErrOf result Refused → IsPlayable self.playback → ⊥ }
        ensures fault { IfErr result (λ e. (e ≡ Refused) ⊎ (e ≡ OutOfMemory)) }
    {
        match command {
            Command::GoTo(place) => self.go_to(place, out),
            Command::GoToEnd => self.go_to_end(out),
            Command::Until(place) => self.stop_at(place, out),
            Command::Limit(limit) => self.limit(limit, out),
            Command::Events => self.tell_standing(out),
            Command::Inspect => self.tell_listing(out),
            Command::Fork => self.end_here(out),
            Command::Append(event) => self.make_by(event, out),
            Command::Extend(most) => self.go_on_by_turns(most, out),
            Command::Help => self.tell_help(out),
        }
    }

    /// Does what gdb's user commands. What is told goes behind what is in `out`.
    ///
    /// # Errors
    ///
    /// `Refused` only where an event isn't accepted at its turn, or they don't come through the run's stage; `OutOfMemory`.
    pub(crate) fn obey(self, text: &[u8], out: &mut Vec<u8>) -> Result<Stub, DebugFault>
        ensures obeyed { IfOk result (λ stub. (console : List ℕ)
            × Obeys text.now self stub console × (out.new.items ≡ out.old.items ++ console)) }
        ensures refused { IsErrOf result Refused → IsPlayable self.playback → ⊥ }
        ensures fault { IfErr result (λ e. (e ≡ Refused) ⊎ (e ≡ OutOfMemory)) }
    {
        match command_of(text) {
            Ok(command) => self.perform(command, out),
            Err(why) => self.tell_misread(why, out),
        }
    }
}
