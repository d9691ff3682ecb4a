//! What a piece is told as.
ghost use Rattle.std.specs.Prelude.{◌≡◌, ◌<◌, ◌^◌, OnOk, length};
ghost use Rattle.std.specs.Io.KnownBytes.{Appends};
ghost use Rattle.ckrt_look_timeline.specs.Pieces.{laid};
ghost use Rattle.ckrt_look_timeline.specs.Texts.{bar_text, complete_text, is_absent, piece_text, pieces_text};

use crate::part::{Part, write_parts};
use crate::piece::{Activity, Piece};
use std::io::{Result, Write};

/// In which form a timeline is told.
#[derive(Clone, Copy, Debug, PartialEq, Eq)]
pub enum Form {
    /// A picture (SVG).
    Picture,
    /// Trace events (JSON), as chrome://tracing and Perfetto read them.
    Events,
}

fn is_absent(activity: Activity) -> bool
    ensures { result ≡ is_absent activity }
{
    matches!(activity, Activity::Absent)
}

/// The bar of a piece of a thread that begins with a step.
fn write_bar<W: Write>(out: &mut W, thread: u64, begin: u64, piece: &Piece) -> Result<()>
    ensures { OnOk result (Appends (W.contents out.old) (W.contents out.new)
        (bar_text thread begin piece.now)) }
{
    write_parts(
        out,
        &[
            Part::Text(b"<rect class=\""),
            Part::Kind(piece.activity),
            Part::Text(b"\" x=\""),
            Part::Number(begin),
            Part::Text(b"\" width=\""),
            Part::Number(piece.steps),
            Part::Text(b"\" "),
            Part::Size(piece.activity),
            Part::Text(b"><title>thread "),
            Part::Number(thread),
            Part::Text(b" "),
            Part::Words(piece.activity),
            Part::Object(piece.activity),
            Part::Text(b": "),
            Part::Number(piece.steps),
            Part::Text(b" steps from step "),
            Part::Number(begin),
            Part::Text(b"</title></rect>\n"),
        ],
    )
}

/// The trace event of such a piece.
fn write_complete<W: Write>(out: &mut W, thread: u64, begin: u64, piece: &Piece) -> Result<()>
    ensures { OnOk result (Appends (W.contents out.old) (W.contents out.new)
        (complete_text thread begin piece.now)) }
{
    write_parts(
        out,
        &[
            Part::Text(b",\n{\"name\":\""),
            Part::Words(piece.activity),
            Part::Object(piece.activity),
            Part::Text(b"\",\"cat\":\""),
            Part::Kind(piece.activity),
            Part::Text(b"\",\"ph\":\"X\",\"ts\":"),
            Part::Number(begin),
            Part::Text(b",\"dur\":"),
            Part::Number(piece.steps),
            Part::Text(b",\"pid\":1,\"tid\":"),
            Part::Number(thread),
            Part::Text(b"}"),
        ],
    )
}

/// A piece, if its thread was there.
#[tactic(auto, using(ckrt_look_calls::proofs::AppendLemmas::appends_none))]
fn write_piece<W: Write>(
    out: &mut W,
    form: Form,
    thread: u64,
    begin: u64,
    piece: &Piece,
) -> Result<()>
    ensures { OnOk result (Appends (W.contents out.old) (W.contents out.new)
        (piece_text form thread begin piece.now)) }
{
    if is_absent(piece.activity) {
        return Ok(());
    }
    match form {
        Form::Picture => write_bar(out, thread, begin, piece),
        Form::Events => write_complete(out, thread, begin, piece),
    }
}

/// Pieces one behind another, the first of which begins with step 0.
pub(crate) fn write_pieces<W: Write>(
    out: &mut W,
    form: Form,
    thread: u64,
    pieces: &[Piece],
) -> Result<()>
    requires few { length (laid pieces.now) < 2 ^ 64 }
    ensures { OnOk result (Appends (W.contents out.old) (W.contents out.new)
        (pieces_text form thread 0 pieces.now)) }
{
    let mut begin = 0;
    for piece in pieces {
        write_piece(out, form, thread, begin, piece)?;
        begin += piece.steps;
    }
    Ok(())
}
