//! What a piece is that goes onto a writer, and in which form names are put.

/// What a piece is that goes onto a writer.
pub enum Piece {
    /// Bytes that were taken, as they are.
    Taken,
    /// Bytes that nobody gave: a note, or what stands in the place of a line.
    Note,
    /// A line that was taken, in whose place a note stands.
    Replaced,
}

/// In which form names are put.
#[derive(Clone, Copy)]
pub enum Form {
    /// Behind lines.
    Notes,
    /// Functions in the place of their addresses, in lines of frames: the stacks of a profile, or callgrind's format.
    Frames,
    /// In the place of addresses and as labels, in a picture (SVG) of a timeline.
    Picture,
    /// In the place of addresses, in trace events (JSON) of a timeline.
    Events,
}
