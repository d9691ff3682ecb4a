//! The line to gdb.
ghost use Rattle.std.specs.Prelude.{◌≡◌, ◌++◌, ◌∷◌, [], IfErr, IfOk, MatchOption, OnErr, OnOk};
ghost use Rattle.std.specs.Io.KnownBytes.{Appends, Consumes, IsAtEnd, Keeps};
ghost use Rattle.ckrt_disk.specs.Writing.{AppendsPart};
ghost use Rattle.ckrt_gdb_forms.specs.Framing.{arrival_of, frame_of, line_after};
ghost use Rattle.ckrt_gdb_forms.specs.Replies.{reply_text};
ghost use Rattle.ckrt_gdb_stub.specs.declared.stub.Stub.{Stub};
ghost use Rattle.ckrt_gdb_playback.specs.Look.{fitting};
ghost use Rattle.ckrt_gdb_stub.specs.Conversation.{asked_by, asked_of, begun, console_frames, sign_in, sign_of, talk_of};

use crate::fault::DebugFault;
use arrayvec::ArrayVec;
use ckrt_disk::write_text;
use ckrt_gdb_forms::{
    Arrival, FRAME_LIMIT, Payload, Receiver, Reply, Request, parse_request, write_frame,
};
use ckrt_gdb_playback::put_reply;
use std::io::{ErrorKind, Read, Write};

/// How many bytes of a text go into a packet for gdb's console.
const CONSOLE_LIMIT: usize = 2_000;

/// The line to gdb, with room for a packet each way.
#[derive(Drop)]
pub struct Line {
    pub receiver: Receiver,
    /// The payload of the next reply.
    pub payload: Payload,
    /// The frame that was sent last.
    pub frame: ArrayVec<u8, FRAME_LIMIT>,
    /// Whether packets are acknowledged.
    pub is_acknowledged: bool,
}

/// The next byte, if the line hasn't ended.
///
/// # Errors
///
/// `Read` where the reader failed, or was only ever interrupted.
pub fn next_byte<R: Read>(reader: &mut R) -> Result<Option<u8>, DebugFault>
    ensures some { IfOk result (λ o. MatchOption o
        (Consumes (R.remaining reader.old) (R.remaining reader.new) []
        × IsAtEnd (R.remaining reader.new))
        (λ b. Consumes (R.remaining reader.old) (R.remaining reader.new) (b ∷ []))) }
    ensures none { OnErr result (Keeps (R.remaining reader.old) (R.remaining reader.new)) }
    ensures fault { IfErr result (λ e. e ≡ DebugFault.Read) }
{
    let mut byte = [0u8; 1];
    for _ in 0..u64::MAX {
        match reader.read(&mut byte) {
            Ok(0) => return Ok(None),
            Ok(_) => return Ok(Some(byte[0])),
            Err(error) => {
                if error.kind() != ErrorKind::Interrupted {
                    return Err(DebugFault::Read);
                }
            }
        }
    }
    Err(DebugFault::Read)
}

/// Bytes go out at once. Where the writer fails, what it took is a beginning of them.
fn write<W: Write>(writer: &mut W, bytes: &[u8]) -> Result<(), DebugFault>
    ensures ok { OnOk result (Appends (W.contents writer.old) (W.contents writer.new) bytes.now) }
    ensures part { OnErr result
        (AppendsPart (W.contents writer.old) (W.contents writer.new) bytes.now) }
    ensures fault { IfErr result (λ e. e ≡ DebugFault.Write) }
{
    match write_text(writer, bytes) {
        Ok(()) => Ok(()),
        Err(_) => Err(DebugFault::Write),
    }
}

/// What has arrived gets its sign: whether a packet came over whole, as long as gdb wants to know, or what was sent last.
fn sign<W: Write>(
    arrival: Option<Arrival>,
    sent: &[u8],
    is_acknowledged: bool,
    writer: &mut W,
) -> Result<(), DebugFault>
    ensures ok { OnOk result (Appends (W.contents writer.old) (W.contents writer.new)
        (sign_of arrival sent.now is_acknowledged)) }
    ensures part { OnErr result (AppendsPart (W.contents writer.old) (W.contents writer.new)
        (sign_of arrival sent.now is_acknowledged)) }
    ensures fault { IfErr result (λ e. e ≡ DebugFault.Write) }
{
    match arrival {
        Some(Arrival::Packet) if is_acknowledged => write(writer, b"+"),
        Some(Arrival::Broken) if is_acknowledged => write(writer, b"-"),
        Some(Arrival::Refused) => write(writer, sent),
        _ => Ok(()),
    }
}

/// Sends a payload in its frame.
fn send_frame<W: Write>(
    payload: &Payload,
    frame: &mut ArrayVec<u8, FRAME_LIMIT>,
    writer: &mut W,
) -> Result<(), DebugFault>
    ensures sent { frame.new.items ≡ frame_of payload.now.items }
    ensures ok { OnOk result (Appends (W.contents writer.old) (W.contents writer.new)
        (frame_of payload.now.items)) }
    ensures part { OnErr result (AppendsPart (W.contents writer.old) (W.contents writer.new)
        (frame_of payload.now.items)) }
    ensures fault { IfErr result (λ e. e ≡ DebugFault.Write) }
{
    write_frame(payload, frame);
    write(writer, frame.as_slice())
}

impl Line {
    /// A line on which nothing has come yet.
    pub fn new() -> Line
        ensures { (stub : Stub) → talk_of stub result ≡ begun stub }
    {
        Line {
            receiver: Receiver::new(),
            payload: ArrayVec::new(),
            frame: ArrayVec::new(),
            is_acknowledged: true,
        }
    }

    /// Sends the payload.
    pub fn send<W: Write>(&mut self, writer: &mut W) -> Result<(), DebugFault>
        ensures sent { self.new.frame.items ≡ frame_of self.old.payload.items }
        ensures heard { self.new.receiver ≡ self.old.receiver }
        ensures acknowledged { self.new.is_acknowledged ≡ self.old.is_acknowledged }
        ensures ok { OnOk result (Appends (W.contents writer.old) (W.contents writer.new)
            (frame_of self.old.payload.items)) }
        ensures part { OnErr result (AppendsPart (W.contents writer.old) (W.contents writer.new)
            (frame_of self.old.payload.items)) }
        ensures fault { IfErr result (λ e. e ≡ DebugFault.Write) }
    {
        send_frame(&self.payload, &mut self.frame, writer)
    }

    /// Sends a reply in place of the payload.
    pub fn send_reply<W: Write>(
        &mut self,
        reply: &Reply<'_>,
        writer: &mut W,
    ) -> Result<(), DebugFault>
        ensures sent { self.new.frame.items ≡ frame_of (fitting (reply_text reply.now)) }
        ensures heard { self.new.receiver ≡ self.old.receiver }
        ensures acknowledged { self.new.is_acknowledged ≡ self.old.is_acknowledged }
        ensures ok { OnOk result (Appends (W.contents writer.old) (W.contents writer.new)
            (frame_of (fitting (reply_text reply.now)))) }
        ensures part { OnErr result (AppendsPart (W.contents writer.old) (W.contents writer.new)
            (frame_of (fitting (reply_text reply.now)))) }
        ensures fault { IfErr result (λ e. e ≡ DebugFault.Write) }
    {
        put_reply(reply, &mut self.payload);
        self.send(writer)
    }

    /// Sends a text to gdb's console, a packet for each 2,000 bytes.
    pub fn tell<W: Write>(&mut self, text: &[u8], writer: &mut W) -> Result<(), DebugFault>
        ensures heard { self.new.receiver ≡ self.old.receiver }
        ensures acknowledged { self.new.is_acknowledged ≡ self.old.is_acknowledged }
        ensures ok { OnOk result (Appends (W.contents writer.old) (W.contents writer.new)
            (console_frames text.now)) }
        ensures part { OnErr result (AppendsPart (W.contents writer.old) (W.contents writer.new)
            (console_frames text.now)) }
        ensures fault { IfErr result (λ e. e ≡ DebugFault.Write) }
    {
        let mut rest = text;
        while !rest.is_empty() {
            let (part, more) = rest.split_at(CONSOLE_LIMIT.min(rest.len()));
            self.send_reply(&Reply::Console(part), writer)?;
            rest = more;
        }
        Ok(())
    }

    /// Sends a text to gdb's console, and a payload behind it.
    pub fn send_behind<W: Write>(
        &mut self,
        note: &[u8],
        payload: &Payload,
        writer: &mut W,
    ) -> Result<(), DebugFault>
        ensures sent { OnOk result (self.new.frame.items ≡ frame_of payload.now.items) }
        ensures heard { self.new.receiver ≡ self.old.receiver }
        ensures acknowledged { self.new.is_acknowledged ≡ self.old.is_acknowledged }
        ensures ok { OnOk result (Appends (W.contents writer.old) (W.contents writer.new)
            (console_frames note.now ++ frame_of payload.now.items)) }
        ensures part { OnErr result (AppendsPart (W.contents writer.old) (W.contents writer.new)
            (console_frames note.now ++ frame_of payload.now.items)) }
        ensures fault { IfErr result (λ e. e ≡ DebugFault.Write) }
    {
        self.tell(note, writer)?;
        send_frame(payload, &mut self.frame, writer)
    }

    /// What was asked, if this arrived.
    fn asked(&self, arrival: Option<Arrival>) -> Option<Request>
        ensures { result ≡ asked_of arrival self.now.receiver.payload }
    {
        match arrival {
            Some(Arrival::Packet) => Some(parse_request(self.receiver.payload())),
            _ => None,
        }
    }

    /// Takes a byte, which gets its sign, and says what is asked with it.
    pub fn hear<W: Write>(
        &mut self,
        byte: u8,
        writer: &mut W,
    ) -> Result<Option<Request>, DebugFault>
        ensures heard { self.new.receiver ≡ line_after byte self.old.receiver }
        ensures kept { (self.new.frame ≡ self.old.frame)
            × (self.new.is_acknowledged ≡ self.old.is_acknowledged) }
        ensures asked { IfOk result (λ asked. asked ≡ asked_by byte self.old.receiver) }
        ensures ok { OnOk result (Appends (W.contents writer.old) (W.contents writer.new)
            (sign_in byte self.old)) }
        ensures part { OnErr result (AppendsPart (W.contents writer.old) (W.contents writer.new)
            (sign_in byte self.old)) }
        ensures fault { IfErr result (λ e. e ≡ DebugFault.Write) }
    {
        let arrival = self.receiver.receive(byte);
        sign(arrival, self.frame.as_slice(), self.is_acknowledged, writer)?;
        Ok(self.asked(arrival))
    }
}
