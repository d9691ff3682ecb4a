//! What is written reads back.
ghost use Rattle.ckrt_gdb_forms.specs.ReadBack.{BytesReadBack, EscapedReadsBack, FramesReadBack, NumbersReadBack, RepliesArePlain};

/// The laws of frames: whatever was on the line before, the frame of a payload without `#` and `$` is heard as a packet with that
/// payload, and nothing else; and the payload of each reply is of this kind.
pub fn frames_read_back()
    ensures frames { FramesReadBack }
    ensures replies { RepliesArePlain }
{}

/// The laws of what stands in payloads: numbers, bytes in digits, and escaped bytes read back as what was written.
pub fn parts_read_back()
    ensures numbers { NumbersReadBack }
    ensures bytes { BytesReadBack }
    ensures escaped { EscapedReadsBack }
{}
