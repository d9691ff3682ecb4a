//! The last line that a run put.
ghost use Rattle.std.specs.Prelude.{◌≡◌};
ghost use Rattle.std.specs.List.{fold};
ghost use Rattle.ckrt_hunt_schedules.specs.LastLines.{heard, no_line, with_byte};

use arrayvec::ArrayVec;

/// How many bytes of a line are held.
pub const LINE_BYTES: usize = 200;

/// The last line of an output that has a byte. A line feed, or the end of the output, ends a line.
#[derive(Debug, Drop, PartialEq, Eq)]
pub struct LastLine {
    /// Its first bytes, [`LINE_BYTES`] at most.
    pub bytes: ArrayVec<u8, 200>,
    /// Whether it has more bytes.
    pub is_longer: bool,
    /// Whether a line feed has ended it.
    pub is_over: bool,
}

impl LastLine {
    /// That of an output without a byte.
    pub fn none() -> LastLine
        ensures { result ≡ no_line }
    {
        LastLine {
            bytes: ArrayVec::new(),
            is_longer: false,
            is_over: false,
        }
    }

    /// One more byte of the line, held where there is room.
    fn push(&mut self, byte: u8)
        ensures { self.new ≡ with_byte byte self.old }
    {
        if self.bytes.len() < LINE_BYTES {
            self.bytes.push(byte);
        } else {
            self.is_longer = true;
        }
    }

    /// One more byte of the output.
    fn hear_byte(&mut self, byte: u8)
        ensures { self.new ≡ heard self.old byte }
    {
        if byte == b'\n' {
            self.is_over = true;
            return;
        }
        if self.is_over {
            *self = LastLine::none();
        }
        self.push(byte);
    }

    /// More of the output. It takes no memory.
    pub(crate) fn hear(&mut self, bytes: &[u8])
        ensures { self.new ≡ fold heard self.old bytes.now }
    {
        for byte in bytes {
            self.hear_byte(*byte);
        }
    }
}
