//! Reading rows, one after another.
ghost use Rattle.std.specs.Prelude.{◌≡◌, ◌<◌, ◌^◌, ℕ, List, [], ◌∷◌, Bool, true};
ghost use Rattle.std.specs.List.{flat_map};
ghost use Rattle.ckrt_tables.specs.Decoding.{Finds, GoesOn, Reaches};
ghost use Rattle.ckrt_tables.specs.Records.{counted, flag, one_byte, two_bytes};

use crate::cursor::Cursor;

/// What is read as a record, and goes onto a table.
pub trait Row: Drop {
    /// What is built of these rows.
    type Table;

    ghost encoding: { Self → List ℕ };

    // its numbers fit their fields
    ghost fits: { Self → Bool };

    // the table that is begun is on the way to the other, which has these rows after those that are there
    ghost LeadsTo: { Self.Table → List Self → Self.Table → Type 0 };

    /// The row at the front of the bytes that are left.
    fn read(cursor: &mut Cursor<'_>) -> Self
        ensures { Finds fits encoding cursor.old result cursor.new };

    /// The row goes after those that are there.
    fn append(self, table: &mut Self::Table)
        ensures { GoesOn LeadsTo table.old self table.new };
}

/// That many rows, which go onto the table.
pub fn read_rows<R: Row>(cursor: &mut Cursor<'_>, table: &mut R::Table, count: usize)
    ensures { Reaches R.LeadsTo R.fits (flat_map R.encoding) (λ n. n ≡ count) cursor.old table.old
        table.new cursor.new }
{
    for _ in 0..count {
        let row = R::read(cursor);
        row.append(table);
    }
}

/// How many rows there are, in one byte, and the rows, which go onto the table.
pub fn read_few<R: Row>(cursor: &mut Cursor<'_>, table: &mut R::Table)
    ensures { Reaches R.LeadsTo R.fits (counted one_byte R.encoding) (λ n. n < 256) cursor.old
        table.old table.new cursor.new }
{
    let count = cursor.byte();
    read_rows::<R>(cursor, table, usize::from(count));
}

/// How many rows there are, in two bytes, and the rows, which go onto the table.
pub fn read_many<R: Row>(cursor: &mut Cursor<'_>, table: &mut R::Table)
    ensures { Reaches R.LeadsTo R.fits (counted two_bytes R.encoding) (λ n. n < 256 ^ 2) cursor.old
        table.old table.new cursor.new }
{
    let count = cursor.half();
    read_rows::<R>(cursor, table, usize::from(count));
}

/// A mark: 1 where it is set, 0 where it is not.
pub fn read_mark(cursor: &mut Cursor<'_>) -> bool
    ensures { Finds (λ b. true) (λ b. flag 1 b ∷ []) cursor.old result cursor.new }
{
    cursor.byte() == 1
}
