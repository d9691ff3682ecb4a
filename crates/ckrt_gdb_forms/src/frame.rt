//! Frames on the line, and their signs.
ghost use Rattle.std.specs.Prelude.{◌≡◌, ◌+◌, ◌≤◌, ◌++◌, length};
ghost use Rattle.arrayvec.specs.ArrayVec.{array_vec_len};
ghost use Rattle.ckrt_gdb_forms.specs.Framing.{Line, checksum, frame_of, is_checksum, line_after, arrival_of, sign_of};

use crate::numbers::digit_value;
use crate::payload::{Payload, digit};
use arrayvec::ArrayVec;
use std::marker::Model;

/// How many bytes a payload has at most.
pub const PAYLOAD_LIMIT: usize = 4_096;

/// How many bytes a frame has at most: `$`, a payload, `#` and two digits.
pub const FRAME_LIMIT: usize = PAYLOAD_LIMIT + 4;

/// Where in a frame the next byte of the line stands.
#[derive(Clone, Copy, Debug, Drop, PartialEq, Eq)]
pub enum Stage {
    /// Between frames.
    Outside,
    /// Within a payload, or at its end.
    Payload,
    /// Within a payload that is longer than [`PAYLOAD_LIMIT`].
    Overlong,
    /// Behind a payload.
    FirstDigit,
    /// Behind the first byte of a checksum, which is this.
    LastDigit(u8),
}

/// What has arrived from the line with a byte.
#[derive(Clone, Copy, Debug, Drop, PartialEq, Eq)]
pub enum Arrival {
    /// `+`: the last packet came over whole.
    Acknowledged,
    /// `-`: the last packet is to be sent once more.
    Refused,
    /// The byte 3: what is under way is to stop.
    Interrupt,
    /// A packet: its payload is [`Receiver::payload`].
    Packet,
    /// A frame whose checksum is wrong, or whose payload is too long.
    Broken,
}

/// The receiving end of a line, byte by byte.
#[derive(Drop)]
pub struct Receiver {
    stage: Stage,
    sum: u8,
    payload: ArrayVec<u8, PAYLOAD_LIMIT>,
}

impl Model for Receiver {
    ghost use Rattle.std.specs.Prelude.{◌≡◌};
    ghost use Rattle.ckrt_gdb_forms.specs.Framing.{Line, checksum};

    ghost Value = { Line };

    ghost view = { λ s. record { stage = s.stage; payload = s.payload.items } };

    ghost invariant = { λ s. s.sum ≡ checksum s.payload.items };
}

impl Receiver {
    ghost use Rattle.std.specs.Prelude.{◌≡◌, [], if◌then◌else◌};
    ghost use Rattle.ckrt_gdb_forms.specs.declared.frame.Stage.TheVariants.{Outside, Payload, Overlong};
    ghost use Rattle.ckrt_gdb_forms.specs.declared.frame.Arrival.TheVariants.{Packet, Broken};
    ghost use Rattle.ckrt_gdb_forms.specs.Framing.{line_after, line_at, arrival_of, arrival_at, with_byte, is_checksum};

    /// A line on which nothing has come yet.
    pub fn new() -> Receiver
        ensures { result ≡ record { stage = Outside; payload = [] } }
    {
        Receiver {
            stage: Stage::Outside,
            sum: 0,
            payload: ArrayVec::new(),
        }
    }

    /// The payload of the last packet, until the next frame begins.
    pub fn payload(&self) -> &[u8]
        ensures { result.now ≡ self.now.payload }
    {
        self.payload.as_slice()
    }

    /// Takes the next byte of the line, and says what has arrived with it.
    pub fn receive(&mut self, byte: u8) -> Option<Arrival>
        ensures line { self.new ≡ line_after byte self.old }
        ensures arrival { result ≡ arrival_of byte self.old }
    {
        if byte == b'$' {
            self.begin();
            return None;
        }
        match self.stage {
            Stage::Outside => sign(byte),
            Stage::Payload => {
                self.take(byte);
                None
            }
            Stage::Overlong => self.skip(byte),
            Stage::FirstDigit => {
                self.stage = Stage::LastDigit(byte);
                None
            }
            Stage::LastDigit(high) => {
                self.stage = Stage::Outside;
                Some(self.checked(high, byte))
            }
        }
    }

    /// A frame begins.
    fn begin(&mut self)
        ensures { self.new ≡ record { stage = Payload; payload = [] } }
    {
        self.stage = Stage::Payload;
        self.sum = 0;
        self.payload.clear();
    }

    /// A byte of a payload, or its end.
    fn take(&mut self, byte: u8)
        ensures { self.new ≡ with_byte byte self.old }
    {
        if byte == b'#' {
            self.stage = Stage::FirstDigit;
        } else if self.payload.is_full() {
            self.stage = Stage::Overlong;
        } else {
            self.stage = Stage::Payload;
            self.payload.push(byte);
            self.sum = self.sum.wrapping_add(byte);
        }
    }

    /// A byte of a payload that is too long, or its end.
    fn skip(&mut self, byte: u8) -> Option<Arrival>
        ensures line { self.new ≡ line_at Overlong byte self.old }
        ensures arrival { result ≡ arrival_at Overlong byte self.old.payload }
    {
        if byte != b'#' {
            return None;
        }
        self.stage = Stage::Outside;
        Some(Arrival::Broken)
    }

    /// Whether the two bytes behind a payload are its checksum.
    fn checked(&self, high: u8, low: u8) -> Arrival
        ensures { result ≡ (if is_checksum high low self.now.payload then Packet else Broken) }
    {
        match (digit_value(high), digit_value(low)) {
            (Some(high), Some(low)) if 16 * high + low == self.sum => Arrival::Packet,
            _ => Arrival::Broken,
        }
    }
}

/// What a byte between frames says.
fn sign(byte: u8) -> Option<Arrival>
    ensures { result ≡ sign_of byte }
{
    match byte {
        b'+' => Some(Arrival::Acknowledged),
        b'-' => Some(Arrival::Refused),
        3 => Some(Arrival::Interrupt),
        _ => None,
    }
}

/// The sum of bytes, modulo 256.
fn checksum(bytes: &[u8]) -> u8
    ensures { result ≡ checksum bytes.now }
{
    let mut sum = 0u8;
    for byte in bytes {
        sum = sum.wrapping_add(*byte);
    }
    sum
}

/// The frame of a payload, in place of what was in `out`.
pub fn write_frame(payload: &Payload, out: &mut ArrayVec<u8, FRAME_LIMIT>)
    ensures { out.new.items ≡ frame_of payload.now.items }
{
    let sum = checksum(payload);
    out.clear();
    out.push(b'$');
    append(out, payload);
    append(out, &[b'#', digit(sum / 16), digit(sum % 16)]);
}

/// Bytes for which there is room.
fn append(out: &mut ArrayVec<u8, FRAME_LIMIT>, bytes: &[u8])
    requires { array_vec_len out.old + length bytes.now ≤ 4100 }
    ensures { out.new.items ≡ out.old.items ++ bytes.now }
{
    match out.try_extend_from_slice(bytes) {
        Ok(()) => {}
        Err(_) => unreachable!(),
    }
}
