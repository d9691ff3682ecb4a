//! Parts of a packet.
ghost use Rattle.std.specs.Prelude.{◌≡◌, ◌<◌, IfSome, length, option_map};
ghost use Rattle.ckrt_gdb_forms.specs.Requests.{after, before, behind, is_byte, is_separator};

/// The bytes before the first of a value, and those after it where there is one.
pub(crate) fn split_at(bytes: &[u8], value: u8) -> (&[u8], Option<&[u8]>)
    ensures before { result.0.now ≡ before (is_byte value) bytes.now }
    ensures after { option_map (λ r. r.now) result.1 ≡ after (is_byte value) bytes.now }
    ensures within { IfSome result.1 (λ r. length r.now < length bytes.now) }
{
    for (i, byte) in bytes.iter().enumerate() {
        if *byte == value {
            return (&bytes[..i], Some(&bytes[i + 1..]));
        }
    }
    (bytes, None)
}

/// A packet's name, and what follows the byte that ends it.
pub(crate) fn split_name(packet: &[u8]) -> (&[u8], &[u8])
    ensures before { result.0.now ≡ before is_separator packet.now }
    ensures behind { result.1.now ≡ behind is_separator packet.now }
{
    for (i, byte) in packet.iter().enumerate() {
        if *byte == b':' || *byte == b';' || *byte == b',' {
            return (&packet[..i], &packet[i + 1..]);
        }
    }
    (packet, &[])
}
