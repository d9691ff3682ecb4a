//! Rows of a table, one line after another.
ghost use Rattle.std.specs.Prelude.{◌≡◌, ◌++◌, ℕ, List, OnOk};
ghost use Rattle.std.specs.List.{flat_map};

use std::alloc::AllocError;

/// What is listed as a line.
pub trait Row {
    ghost text: { Self → List ℕ };

    /// Puts the line after what there is.
    fn push_to(&self, out: &mut Vec<u8>) -> Result<(), AllocError>
        ensures { OnOk result (out.new.items ≡ out.old.items ++ text self.now) };
}

/// Puts the lines of the rows after what there is.
pub fn push_rows<T: Row>(out: &mut Vec<u8>, rows: &[T]) -> Result<(), AllocError>
    ensures { OnOk result (out.new.items ≡ out.old.items ++ flat_map T.text rows.now) }
{
    for row in rows {
        row.push_to(out)?;
    }
    Ok(())
}
