//! Words, texts and bytes that are read, as the laws speak of them that each stands for one thing.
ghost use Rattle.std.specs.Prelude.{◌≡◌, ◌≤◌, ◌++◌, IfSome, List, true};
ghost use Rattle.arrayvec.specs.ArrayVec.{array_vec_len};
ghost use Rattle.ckrt_events.specs.Bytes.{IsBatch, IsEncodingOf, encoding_of};
ghost use Rattle.ckrt_events.specs.declared.event.Event.{Event};
ghost use Rattle.ckrt_witness.specs.Codes.{EventsWitness, InstructionWitness};

use arrayvec::ArrayVec;
use ckrt_events::{BATCH_LIMIT, Event, decode_events, encode_event};
use ckrt_rv32i::{Instr, decode, encode, instr_text, parse_instr};

/// The instruction of a word, whose text is read again and which is encoded again: that meets all premises of the laws of
/// instructions. None where the word encodes none.
pub fn read_instruction(word: u32) -> Option<Instr>
    ensures { IfSome result (λ _. InstructionWitness word) }
{
    let instruction = decode(word)?;
    let _again = encode(&instruction);
    parse_instr(instr_text(&instruction).as_bytes())
}

/// Whether there is room for two events one behind the other.
fn put_both(first: &Event, second: &Event, out: &mut ArrayVec<u8, BATCH_LIMIT>) -> bool
    requires { array_vec_len out.old ≡ 0 }
    ensures both { result ≡ true
        → out.new.items ≡ encoding_of first.now ++ encoding_of second.now }
    ensures some { result ≡ true → 1 ≤ array_vec_len out.new }
    ensures room { array_vec_len out.new ≤ 4096 }
{
    encode_event(first, out) && encode_event(second, out) && !out.is_empty()
}

/// Whether bytes that encode events are a batch.
fn is_batch(version: u32, bytes: &[u8]) -> bool
    ensures { result ≡ true
        → ((events : List Event) × IsEncodingOf version bytes.now events)
        × IsBatch version bytes.now }
{
    let Some(_events) = decode_events(version, bytes) else {
        return false;
    };
    1 <= bytes.len() && bytes.len() <= 4096
}

/// Encodes two events and decodes them again, and finds that there is no room for the first behind what is full, and that torn bytes encode none:
/// that meets all premises of the laws of events. Whether it is so.
pub fn read_events(
    version: u32,
    first: &Event,
    second: &Event,
    full: &mut ArrayVec<u8, BATCH_LIMIT>,
    torn: &[u8],
) -> bool
    ensures { result ≡ true
        → EventsWitness version first.now second.now full.old.items torn.now }
{
    if !first.in_range() || !second.in_range() {
        return false;
    }
    let mut out = ArrayVec::new();
    if !put_both(first, second, &mut out) {
        return false;
    }
    if encode_event(first, full) || !is_batch(version, out.as_slice()) {
        return false;
    }
    decode_events(version, torn).is_none()
}
