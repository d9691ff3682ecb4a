//! A dense picture: columns of as many steps each, and for how many of its steps a thread did what.
ghost use Rattle.std.specs.Prelude.{◌≡◌, ◌≤◌, ◌<◌, ◌+◌, ◌^◌, OnOk, drop, get_or, length, nat_le};
ghost use Rattle.std.specs.List.{flat_map};
ghost use Rattle.std.specs.Io.KnownBytes.{Appends};
ghost use Rattle.ckrt_look_timeline.specs.Pieces.{laid, tracks_of};
ghost use Rattle.ckrt_look_timeline.specs.Shares.{IsColumn, IsSpot, bar_if_any, bars_from, behind, by_kind, counted_column, dense_text, drawn_in, drawn_of, edge, filled_text, kind_at, rest_of, span_of, title_text, told_of, total};

use crate::part::{Part, write_parts};
use crate::piece::{Activity, Piece};
use crate::words::Form;
use std::io::{Result, Write};

/// So many pieces are drawn one by one, at most.
pub(crate) const MAX_PIECES: u64 = 2_000;

/// How high a column is, in hundredths of a pixel.
const HEIGHT: u128 = 1_600;

/// So many kinds of activity have a colour; what is told of a thread that isn't there is behind them.
const KINDS: usize = 10;

/// At how many steps of a column a thread did what is of a kind.
#[derive(Clone, Copy, Debug)]
pub(crate) struct Share {
    /// Any activity of the kind.
    pub(crate) kind: Activity,
    /// How many.
    pub(crate) steps: u64,
}

/// Steps in a row, by their number alone.
#[derive(Clone, Copy, Debug)]
pub(crate) struct Column {
    /// How many there are of each kind, in the order of the legend, and at last how many at which the thread isn't there.
    pub(crate) shares: [u64; 11],
    /// How many there are.
    pub(crate) steps: u64,
}

/// A place in pieces: so many steps of the one at an index are behind it.
#[derive(Clone, Copy, Debug)]
pub(crate) struct Spot {
    pub(crate) index: usize,
    pub(crate) used: u64,
}

/// How many pieces of a thread are to be drawn.
fn drawn_of(pieces: &[Piece]) -> u64
    ensures { result ≡ drawn_of pieces.now }
{
    let mut drawn = 0;
    for piece in pieces {
        if !matches!(piece.activity, Activity::Absent) {
            drawn += 1;
        }
    }
    drawn
}

/// Whether the pieces of all threads are few enough to be drawn one by one.
fn are_few(tracks: &[Vec<Piece>]) -> bool
    ensures { result ≡ nat_le (drawn_in (tracks_of tracks.now)) 2000 }
{
    let mut left = MAX_PIECES;
    for pieces in tracks {
        let drawn = drawn_of(pieces);
        if drawn > left {
            return false;
        }
        left -= drawn;
    }
    true
}

/// How many steps each column has of a timeline with so many rows and steps; 0 where its pieces are drawn one by one.
pub(crate) fn span_of(form: Form, tracks: &[Vec<Piece>], rows: u64, steps: u64) -> u64
    requires low { rows ≤ 64 }
    requires short { steps < 2 ^ 63 }
    ensures { result ≡ span_of form (drawn_in (tracks_of tracks.now)) rows steps }
{
    match form {
        Form::Events => 0,
        Form::Picture if are_few(tracks) || rows == 0 => 0,
        Form::Picture => steps / (MAX_PIECES / rows) + 1,
    }
}

/// Where the kind of an activity stands in the legend.
fn kind_at(activity: Activity) -> usize
    ensures kind { result ≡ kind_at activity }
    ensures within { result ≤ 10 }
{
    match activity {
        Activity::Running(_) => 0,
        Activity::Mutex(_) => 1,
        Activity::Condition(_) => 2,
        Activity::Barrier(_) => 3,
        Activity::RwLock(_) => 4,
        Activity::Join(_) => 5,
        Activity::Input => 6,
        Activity::Sleep => 7,
        Activity::Ready => 8,
        Activity::Ended => 9,
        Activity::Absent => 10,
    }
}

/// Behind so many steps more of the piece at a place, which has them.
fn behind(spot: Spot, piece: &Piece, steps: u64) -> Spot
    requires within { spot.used + steps ≤ piece.now.steps }
    requires few { piece.now.steps < 2 ^ 64 }
    requires small { spot.index + 1 < 2 ^ 64 }
    ensures { result ≡ behind spot piece.now steps }
{
    if spot.used + steps < piece.steps {
        return Spot {
            index: spot.index,
            used: spot.used + steps,
        };
    }
    Spot {
        index: spot.index + 1,
        used: 0,
    }
}

/// The next steps of a thread, `span` at most; the place goes behind them.
fn next_column(pieces: &[Piece], spot: &mut Spot, span: u64) -> Column
    requires spot { IsSpot pieces.now spot.old }
    requires few { length (laid pieces.now) < 2 ^ 64 }
    ensures column { IsColumn span (rest_of pieces.now spot.old) result }
    ensures rest { rest_of pieces.now spot.new ≡ drop span (rest_of pieces.now spot.old) }
    ensures spot { IsSpot pieces.now spot.new }
{
    let mut shares = [0; KINDS + 1];
    let mut left = span;
    while left > 0 && spot.index < pieces.len() {
        let piece = pieces[spot.index];
        let steps = left.min(piece.steps - spot.used);
        shares[kind_at(piece.activity)] += steps;
        *spot = behind(*spot, &piece, steps);
        left -= steps;
    }
    Column {
        shares,
        steps: span - left,
    }
}

/// The share of a kind.
fn share_of(column: &Column, kind: Activity, index: usize) -> Share
    requires { index ≤ 10 }
    ensures { result ≡ record { kind = kind; steps = get_or column.now.shares index 0 } }
{
    Share {
        kind,
        steps: column.shares[index],
    }
}

/// The shares of a column, in the order of the legend.
fn shares_of(column: &Column) -> [Share; KINDS]
    ensures { result ≡ by_kind (λ k. get_or column.now.shares k 0) }
{
    [
        share_of(column, Activity::Running(0), 0),
        share_of(column, Activity::Mutex(0), 1),
        share_of(column, Activity::Condition(0), 2),
        share_of(column, Activity::Barrier(0), 3),
        share_of(column, Activity::RwLock(0), 4),
        share_of(column, Activity::Join(0), 5),
        share_of(column, Activity::Input, 6),
        share_of(column, Activity::Sleep, 7),
        share_of(column, Activity::Ready, 8),
        share_of(column, Activity::Ended, 9),
    ]
}

/// Where a share ends that with those above it has so many of a column's steps, in hundredths of a pixel.
fn edge(steps: u64, width: u64) -> u64
    requires some { 0 < width }
    requires within { steps ≤ width }
    ensures edge { result ≡ edge steps width }
{
    (u128::from(steps) * HEIGHT / u128::from(width)) as u64
}

/// The bar of a share, below those of `above` steps.
fn write_share<W: Write>(
    out: &mut W,
    begin: u64,
    width: u64,
    above: u64,
    share: &Share,
) -> Result<()>
    requires { above + share.now.steps ≤ width }
    ensures { OnOk result (Appends (W.contents out.old) (W.contents out.new)
        (bar_if_any begin width above share.now)) }
{
    if share.steps == 0 {
        return Ok(());
    }
    let top = edge(above, width);
    write_parts(
        out,
        &[
            Part::Text(b"<rect class=\""),
            Part::Kind(share.kind),
            Part::Text(b"\" x=\""),
            Part::Number(begin),
            Part::Text(b"\" width=\""),
            Part::Number(width),
            Part::Text(b"\" y=\""),
            Part::Number(top),
            Part::Text(b"\" height=\""),
            Part::Number(edge(above + share.steps, width) - top),
            Part::Text(b"\"/>"),
        ],
    )
}

/// The bars of shares, one below another.
fn write_bars<W: Write>(out: &mut W, begin: u64, width: u64, shares: &[Share]) -> Result<()>
    requires { total shares.now ≤ width }
    ensures { OnOk result (Appends (W.contents out.old) (W.contents out.new)
        (bars_from begin width 0 shares.now)) }
{
    let mut above = 0;
    for share in shares {
        write_share(out, begin, width, above, share)?;
        above += share.steps;
    }
    Ok(())
}

/// What the title says of a share.
fn write_told<W: Write>(out: &mut W, share: &Share) -> Result<()>
    ensures { OnOk result (Appends (W.contents out.old) (W.contents out.new)
        (told_of share.now)) }
{
    if share.steps == 0 {
        return Ok(());
    }
    write_parts(
        out,
        &[
            Part::Text(b", "),
            Part::Kind(share.kind),
            Part::Text(b" "),
            Part::Number(share.steps),
        ],
    )
}

/// What the title says of all shares.
#[tactic(auto, using(ckrt_look_calls::proofs::AppendLemmas::appends_none, ckrt_look_calls::proofs::AppendLemmas::appends_more, ckrt_look_calls::proofs::AppendLemmas::appends_all))]
fn write_all_told<W: Write>(out: &mut W, shares: &[Share]) -> Result<()>
    ensures { OnOk result (Appends (W.contents out.old) (W.contents out.new)
        (flat_map told_of shares.now)) }
{
    for share in shares {
        write_told(out, share)?;
    }
    Ok(())
}

/// The begin of a title.
fn write_title<W: Write>(out: &mut W, thread: u64, begin: u64, width: u64) -> Result<()>
    ensures { OnOk result (Appends (W.contents out.old) (W.contents out.new)
        (title_text thread begin width)) }
{
    write_parts(
        out,
        &[
            Part::Text(b"<g><title>thread "),
            Part::Number(thread),
            Part::Text(b": "),
            Part::Number(width),
            Part::Text(b" steps from step "),
            Part::Number(begin),
        ],
    )
}

/// A column in which the thread is there.
#[tactic(auto, using(ckrt_look_calls::proofs::AppendLemmas::appends_both))]
fn write_filled<W: Write>(
    out: &mut W,
    thread: u64,
    begin: u64,
    width: u64,
    shares: &[Share],
) -> Result<()>
    requires { total shares.now ≤ width }
    ensures { OnOk result (Appends (W.contents out.old) (W.contents out.new)
        (filled_text thread begin width shares.now)) }
{
    write_title(out, thread, begin, width)?;
    write_all_told(out, shares)?;
    out.write_all(b"</title>")?;
    write_bars(out, begin, width, shares)?;
    out.write_all(b"</g>\n")
}

/// A column, if the thread is there at any of its steps.
fn write_column<W: Write>(out: &mut W, thread: u64, begin: u64, column: &Column) -> Result<()>
    requires { total (by_kind (λ k. get_or column.now.shares k 0)) ≤ column.now.steps }
    ensures { OnOk result (Appends (W.contents out.old) (W.contents out.new)
        (counted_column thread begin column.now)) }
{
    if column.shares[KINDS] == column.steps {
        return Ok(());
    }
    write_filled(out, thread, begin, column.steps, &shares_of(column))
}

/// The columns of a thread with these pieces, which fill so many steps.
pub(crate) fn write_columns<W: Write>(
    out: &mut W,
    span: u64,
    steps: u64,
    thread: u64,
    pieces: &[Piece],
) -> Result<()>
    requires some { 1 ≤ span }
    requires short { steps < 2 ^ 63 }
    requires few { length (laid pieces.now) < 2 ^ 64 }
    ensures { OnOk result (Appends (W.contents out.old) (W.contents out.new)
        (dense_text span steps thread pieces.now)) }
{
    let mut spot = Spot { index: 0, used: 0 };
    let mut begin = 0;
    for _column in 0..steps / span + 1 {
        let next = next_column(pieces, &mut spot, span);
        write_column(out, thread, begin, &next)?;
        begin += next.steps;
    }
    Ok(())
}
