//! The program's version.

/// The version, and the kit that proved this source: what `rt version` prints.
pub(crate) const VERSION: &[u8] =
    b"0.1.0, source proved with rattle-kit-13f logic dac8208d650f15bf";
