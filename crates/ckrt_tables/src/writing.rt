//! Writing into a slice, one part after another.
ghost use Rattle.std.specs.Prelude.{◌≡◌, ℕ, List, length};
ghost use Rattle.std.specs.List.{flat_map};
ghost use Rattle.ckrt_tables.specs.Writing.{HasRoom, IsPut};

/// What is written as a record.
pub trait Record {
    ghost encoding: { Self → List ℕ };

    /// Writes the record from a place on, and answers where it ends. There must be room for it.
    fn put(&self, out: &mut [u8], at: usize) -> usize
        requires { HasRoom out.old at (encoding self.now) }
        ensures { IsPut out.old at (encoding self.now) out.new result };
}

/// Writes bytes from a place on, and answers where they end. There must be room for them.
pub fn put(out: &mut [u8], at: usize, bytes: &[u8]) -> usize
    requires { HasRoom out.old at bytes.now }
    ensures { IsPut out.old at bytes.now out.new result }
{
    let end = at + bytes.len();
    out[at..end].copy_from_slice(bytes);
    end
}

/// Writes records from a place on, and answers where they end. There must be room for them.
pub fn put_all<T: Record>(out: &mut [u8], at: usize, records: &[T]) -> usize
    requires { HasRoom out.old at (flat_map T.encoding records.now) }
    ensures { IsPut out.old at (flat_map T.encoding records.now) out.new result }
{
    let mut end = at;
    for record in records {
        end = record.put(out, end);
    }
    end
}
