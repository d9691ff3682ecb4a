//! What a chart says beside its pieces.
ghost use Rattle.std.specs.Prelude.{◌≡◌, ◌≤◌, ◌<◌, ◌+◌, ◌^◌, true};
ghost use Rattle.ckrt_look_timeline.specs.Widths.{is_width};

/// What a chart says beside its pieces.
#[derive(Clone, Copy, Debug)]
pub struct Chart {
    /// The picture's width, in pixels: 400 to 4,000.
    pub width: u64,
    /// How many events are done before those that it shows.
    pub first: u64,
    /// How many it shows.
    pub events: u64,
    /// How many steps these make.
    pub steps: u64,
    /// How many threads have a row.
    pub rows: u64,
    /// How many steps each column of a row has, or 0 where its pieces are drawn one by one.
    pub span: u64,
    ghost fits: { is_width width ≡ true },
    ghost few: { first + events < 2 ^ 64 },
    ghost short: { steps < 2 ^ 63 },
    ghost low: { rows ≤ 64 },
}

/// Whether a picture may be so wide, in pixels: 400 to 4,000.
pub fn is_width(width: u32) -> bool
    ensures { result ≡ is_width width }
{
    400 <= width && width <= 4000
}
