//! Packets from gdb, and what they are answered.
ghost use Rattle.std.specs.Prelude.{◌≡◌, ◌≢◌, ◌∷◌, [], ℕ, List, Option, IfErr, IfOk, OnOk, option_map};
ghost use Rattle.std.specs.Io.KnownBytes.{Appends, Consumes};
ghost use Rattle.ckrt_gdb_stub.specs.declared.fault.DebugFault.TheVariants.{OutOfMemory, Range};
ghost use Rattle.ckrt_gdb_stub.specs.Conversation.{Advances, Breaks, BreaksAfter, BreaksByte, BreaksOff, BreaksRequest, Hears, Replies, RepliesToGdb, RepliesToUser, RespondsTo, Serves, TakesMemory, Writes, acknowledges_behind, leaves, monitored, note_by, talk_of};

use crate::fault::DebugFault;
use crate::line::{Line, next_byte};
use crate::stub::Stub;
use arrayvec::ArrayVec;
use ckrt_gdb_forms::{Reply, Request};
use ckrt_gdb_playback::{View, Way, is_interrupted};
use std::io::{Read, Write};

/// What gdb's user is told where a motion ended at the limit of steps.
const LIMIT_NOTE: &[u8] =
    b"ended by the limit of steps, 2000000000 at first: the same command goes on, and monitor limit N sets another\n";

/// What gdb's user is told before the reply to a request by which somebody went this way, if anybody did.
fn note_by(way: Option<Way>, view: &View) -> &'static [u8]
    ensures { result.now ≡ note_by way view.now }
{
    match way {
        Some(_) if is_interrupted(view.last) => LIMIT_NOTE,
        _ => b"",
    }
}

/// The text that gdb's user commands, if the request is that.
fn monitored(request: &Request) -> Option<&[u8]>
    ensures { option_map (λ text. text.now) result ≡ monitored request.now }
{
    match request {
        Request::Monitor(text) => Some(text.as_slice()),
        _ => None,
    }
}

/// Whether gdb leaves with a request.
fn leaves(request: &Request) -> bool
    ensures { result ≡ leaves request.now }
{
    matches!(request, Request::Detach | Request::Kill)
}

/// Whether packets are acknowledged behind a request.
fn acknowledges_behind(request: &Request, acknowledges: bool) -> bool
    ensures { result ≡ acknowledges_behind request.now acknowledges }
{
    match request {
        Request::WithoutAcknowledgements => false,
        _ => acknowledges,
    }
}

impl Stub {
    /// Does what gdb's user commands, and tells it.
    fn respond_to_user<W: Write>(
        self,
        text: &[u8],
        line: &mut Line,
        writer: &mut W,
    ) -> Result<Stub, DebugFault>
        ensures heard { line.new.receiver ≡ line.old.receiver }
        ensures acknowledged { line.new.is_acknowledged ≡ line.old.is_acknowledged }
        ensures whole { IfOk result (λ stub. Writes (RepliesToUser text.now self) stub
            line.new.frame.items (W.contents writer.old) (W.contents writer.new)) }
        ensures broken { IfErr result (λ e. Breaks e (RepliesToUser text.now self) self
            (W.contents writer.old) (W.contents writer.new)) }
    {
        let mut console = Vec::new(self.alloc);
        let stub = self.obey(text, &mut console)?;
        line.tell(console.as_slice(), writer)?;
        line.send_reply(&Reply::Done, writer)?;
        Ok(stub)
    }

    /// Answers a request of gdb's own.
    fn respond_to_gdb<W: Write>(
        self,
        request: &Request,
        line: &mut Line,
        writer: &mut W,
    ) -> Result<Stub, DebugFault>
        ensures heard { line.new.receiver ≡ line.old.receiver }
        ensures acknowledged { line.new.is_acknowledged ≡ line.old.is_acknowledged }
        ensures whole { IfOk result (λ stub. Writes (RepliesToGdb request.now self) stub
            line.new.frame.items (W.contents writer.old) (W.contents writer.new)) }
        ensures broken { IfErr result (λ e. Breaks e (RepliesToGdb request.now self) self
            (W.contents writer.old) (W.contents writer.new)) }
        ensures memory { IfErr result (λ e. e ≢ OutOfMemory) }
    {
        let way = self.way(request);
        let mut payload = ArrayVec::new();
        let stub = self.answer(request, &mut payload)?;
        line.send_behind(note_by(way, &stub.desk.view), &payload, writer)?;
        Ok(stub)
    }

    /// Answers a request over the line.
    fn respond<W: Write>(
        self,
        request: &Request,
        line: &mut Line,
        writer: &mut W,
    ) -> Result<Stub, DebugFault>
        ensures heard { line.new.receiver ≡ line.old.receiver }
        ensures acknowledged { line.new.is_acknowledged ≡ line.old.is_acknowledged }
        ensures whole { IfOk result (λ stub. Writes (Replies request.now self) stub
            line.new.frame.items (W.contents writer.old) (W.contents writer.new)) }
        ensures broken { IfErr result (λ e. Breaks e (Replies request.now self) self
            (W.contents writer.old) (W.contents writer.new)) }
        ensures memory { IfErr result (λ e. TakesMemory e request.now) }
    {
        match monitored(request) {
            Some(text) => self.respond_to_user(text, line, writer),
            None => self.respond_to_gdb(request, line, writer),
        }
    }

    /// Answers what was asked, if anything was, and says whether gdb leaves with it.
    fn take_request<W: Write>(
        self,
        asked: Option<Request>,
        line: &mut Line,
        writer: &mut W,
    ) -> Result<(Stub, bool), DebugFault>
        ensures whole { IfOk result (λ r. (frames : List ℕ)
            × RespondsTo asked (talk_of self line.old) (talk_of r.0 line.new) frames r.1
            × Appends (W.contents writer.old) (W.contents writer.new) frames) }
        ensures broken { IfErr result (λ e. BreaksRequest e asked self
            (W.contents writer.old) (W.contents writer.new)) }
    {
        let Some(request) = asked else {
            return Ok((self, false));
        };
        let stub = self.respond(&request, line, writer)?;
        line.is_acknowledged = acknowledges_behind(&request, line.is_acknowledged);
        Ok((stub, leaves(&request)))
    }

    /// Takes a byte from gdb, and says whether gdb leaves with it.
    fn take_byte<W: Write>(
        self,
        byte: u8,
        line: &mut Line,
        writer: &mut W,
    ) -> Result<(Stub, bool), DebugFault>
        ensures whole { IfOk result (λ r. (out : List ℕ)
            × Hears byte (talk_of self line.old) (talk_of r.0 line.new) out r.1
            × Appends (W.contents writer.old) (W.contents writer.new) out) }
        ensures broken { IfErr result (λ e. BreaksByte e byte (talk_of self line.old)
            (W.contents writer.old) (W.contents writer.new)) }
    {
        let asked = line.hear(byte, writer)?;
        self.take_request(asked, line, writer)
    }

    /// Takes a byte from gdb. None where gdb leaves with it.
    fn go_on<W: Write>(
        self,
        byte: u8,
        line: &mut Line,
        writer: &mut W,
    ) -> Result<Option<Stub>, DebugFault>
        ensures whole { IfOk result (λ next. (r s : Option (List ℕ)) → Consumes r s (byte ∷ [])
            → Advances (option_map (λ stub. talk_of stub line.new) next) (talk_of self line.old) r s
            (W.contents writer.old) (W.contents writer.new)) }
        ensures broken { IfErr result (λ e. (r s : Option (List ℕ)) → Consumes r s (byte ∷ [])
            → BreaksAfter e (talk_of self line.old) r s
            (W.contents writer.old) (W.contents writer.new)) }
    {
        let (next, has_left) = self.take_byte(byte, line, writer)?;
        if has_left {
            drop(next);
            return Ok(None);
        }
        Ok(Some(next))
    }

    /// Reads a byte from gdb, and answers it. None where the input has ended, or gdb leaves.
    fn advance<R: Read, W: Write>(
        self,
        reader: &mut R,
        line: &mut Line,
        writer: &mut W,
    ) -> Result<Option<Stub>, DebugFault>
        ensures whole { IfOk result (λ next.
            Advances (option_map (λ stub. talk_of stub line.new) next) (talk_of self line.old)
            (R.remaining reader.old) (R.remaining reader.new)
            (W.contents writer.old) (W.contents writer.new)) }
        ensures broken { IfErr result (λ e. BreaksAfter e (talk_of self line.old)
            (R.remaining reader.old) (R.remaining reader.new)
            (W.contents writer.old) (W.contents writer.new)) }
    {
        match next_byte(reader) {
            Ok(Some(byte)) => self.go_on(byte, line, writer),
            Ok(None) => {
                drop(self);
                Ok(None)
            }
            Err(fault) => {
                drop(self);
                Err(fault)
            }
        }
    }

    /// Answers gdb's packets until it leaves, or the input ends. Each byte is answered before the next is read.
    ///
    /// # Errors
    ///
    /// `Read` and `Write` where the line failed: what was written is then all that the bytes read get, or a beginning of it. `Refused`
    /// only where an event isn't accepted at its turn, or they don't come through the run's stage, and `OutOfMemory` only of what
    /// gdb's user is told. The session is over then.
    pub fn serve<R: Read, W: Write>(self, reader: &mut R, writer: &mut W) -> Result<(), DebugFault>
        ensures whole { OnOk result (Serves self
            (R.remaining reader.old) (R.remaining reader.new)
            (W.contents writer.old) (W.contents writer.new)) }
        ensures broken { IfErr result (λ e. BreaksOff e self
            (R.remaining reader.old) (R.remaining reader.new)
            (W.contents writer.old) (W.contents writer.new)) }
        ensures fault { IfErr result (λ e. e ≢ Range) }
    {
        let mut line = Line::new();
        let mut stub = self;
        for _ in 0..u64::MAX {
            match stub.advance(reader, &mut line, writer)? {
                Some(next) => stub = next,
                None => return Ok(()),
            }
        }
        drop(stub);
        Err(DebugFault::Read)
    }
}
