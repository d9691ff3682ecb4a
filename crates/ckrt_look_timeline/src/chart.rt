//! A whole picture, and the whole of trace events.
ghost use Rattle.std.specs.Prelude.{◌≡◌, ◌≤◌, ◌<◌, ◌+◌, ◌^◌, ◌++◌, ℕ, OnOk, length};
ghost use Rattle.std.specs.Io.KnownBytes.{Appends};
ghost use Rattle.ckrt_look_timeline.specs.Charts.{LEGEND, STYLE, begin_text, bottom, chart_text, end_text, foot_text, free_behind, half_of, has_room, head_text, heading_text, inside_text, instant_text, is_blank, is_told, label_text, line_text, mark_text, marks_text, middle_of, name_text, number_text, bars_text, page_text, place_of, row_text, rows_in, rows_text, scale_text, tall_text, tick_text};
ghost use Rattle.ckrt_look_timeline.specs.Tracks.{AreUpTo};
ghost use Rattle.ckrt_look_timeline.specs.Pieces.{laid, pieces_at, tracks_of};

use crate::page::Chart;
use crate::part::{Part, write_parts};
use crate::piece::{Activity, Piece};
use crate::shares::write_columns;
use crate::words::{Form, write_pieces};
use std::io::{Result, Write};

/// Where the rows end.
fn bottom(chart: &Chart) -> u64
    ensures place { result ≡ bottom chart.now }
    ensures within { result ≤ 1616 }
{
    80 + 24 * chart.rows
}

/// Whether a thread was never there.
fn is_blank(pieces: &[Piece]) -> bool
    ensures { result ≡ is_blank pieces.now }
{
    for piece in pieces {
        if !matches!(piece.activity, Activity::Absent) {
            return false;
        }
    }
    true
}

/// How many threads have a row.
pub(crate) fn rows_in(tracks: &[Vec<Piece>]) -> u64
    ensures rows { result ≡ rows_in (tracks_of tracks.now) }
    ensures few { result ≤ length tracks.now }
{
    let mut rows = 0;
    for pieces in tracks {
        if !is_blank(pieces) {
            rows += 1;
        }
    }
    rows
}

/// How high a row is, of pieces or of columns; these are drawn without seams.
fn tall_of(chart: &Chart) -> &'static [u8]
    ensures { result.now ≡ tall_text chart.now }
{
    if chart.span == 0 {
        b" 16".as_slice()
    } else {
        b" 1600\" shape-rendering=\"crispEdges".as_slice()
    }
}

/// The label of a thread, and the begin of its bars.
fn write_bars<W: Write>(out: &mut W, chart: &Chart, thread: u64, top: u64) -> Result<()>
    requires { top ≤ 1616 }
    ensures { OnOk result (Appends (W.contents out.old) (W.contents out.new)
        (bars_text chart.now thread top)) }
{
    write_parts(
        out,
        &[
            Part::Text(b"<text x=\"4\" y=\""),
            Part::Number(top + 13),
            Part::Text(b"\">thread "),
            Part::Number(thread),
            Part::Text(b"</text>\n<svg x=\"80\" y=\""),
            Part::Number(top),
            Part::Text(b"\" width=\""),
            Part::Number(chart.width - 100),
            Part::Text(b"\" height=\"16\" viewBox=\"0 0 "),
            Part::Number(chart.steps),
            Part::Text(tall_of(chart)),
            Part::Text(b"\" preserveAspectRatio=\"none\">\n"),
        ],
    )
}

/// The name of a thread.
fn write_name<W: Write>(out: &mut W, thread: u64) -> Result<()>
    ensures { OnOk result (Appends (W.contents out.old) (W.contents out.new) (name_text thread)) }
{
    write_parts(
        out,
        &[
            Part::Text(b",\n{\"name\":\"thread_name\",\"ph\":\"M\",\"pid\":1,\"tid\":"),
            Part::Number(thread),
            Part::Text(b",\"args\":{\"name\":\"thread "),
            Part::Number(thread),
            Part::Text(b"\"}}"),
        ],
    )
}

/// What stands before the pieces of a thread.
fn write_head<W: Write>(out: &mut W, form: Form, chart: &Chart, thread: u64, top: u64) -> Result<()>
    requires { top ≤ 1616 }
    ensures { OnOk result (Appends (W.contents out.old) (W.contents out.new)
        (head_text form chart.now thread top)) }
{
    match form {
        Form::Picture => write_bars(out, chart, thread, top),
        Form::Events => write_name(out, thread),
    }
}

/// What stands behind the pieces of a thread.
fn foot_of(form: Form) -> &'static [u8]
    ensures { result.now ≡ foot_text form }
{
    match form {
        Form::Picture => b"</svg>\n".as_slice(),
        Form::Events => b"".as_slice(),
    }
}

/// What stands at the end.
fn end_of(form: Form) -> &'static [u8]
    ensures { result.now ≡ end_text form }
{
    match form {
        Form::Picture => b"</svg>\n".as_slice(),
        Form::Events => b"\n]}\n".as_slice(),
    }
}

/// The pieces of a thread one by one, or its columns.
fn write_inside<W: Write>(
    out: &mut W,
    form: Form,
    chart: &Chart,
    thread: u64,
    pieces: &[Piece],
) -> Result<()>
    requires few { length (laid pieces.now) < 2 ^ 64 }
    ensures { OnOk result (Appends (W.contents out.old) (W.contents out.new)
        (inside_text form chart.now thread pieces.now)) }
{
    if chart.span == 0 {
        write_pieces(out, form, thread, pieces)
    } else {
        write_columns(out, chart.span, chart.steps, thread, pieces)
    }
}

/// The row of a thread.
#[tactic(auto, using(ckrt_look_calls::proofs::AppendLemmas::appends_both))]
fn write_row<W: Write>(
    out: &mut W,
    form: Form,
    chart: &Chart,
    thread: u64,
    top: u64,
    pieces: &[Piece],
) -> Result<()>
    requires top { top ≤ 1616 }
    requires few { length (laid pieces.now) < 2 ^ 64 }
    ensures { OnOk result (Appends (W.contents out.old) (W.contents out.new)
        (row_text form chart.now thread top pieces.now)) }
{
    write_head(out, form, chart, thread, top)?;
    write_inside(out, form, chart, thread, pieces)?;
    out.write_all(foot_of(form))
}

/// The rows of threads, the first of which is thread 1.
fn write_rows<W: Write>(out: &mut W, form: Form, chart: &Chart, tracks: &[Vec<Piece>]) -> Result<()>
    requires many { length tracks.now ≤ 64 }
    requires few { (i : ℕ) → i < length tracks.now
        → length (laid (pieces_at tracks.now i)) < 2 ^ 64 }
    ensures { OnOk result (Appends (W.contents out.old) (W.contents out.new)
        (rows_text form chart.now 1 80 (tracks_of tracks.now))) }
{
    let mut thread = 1;
    let mut top = 80;
    for pieces in tracks {
        if !is_blank(pieces) {
            write_row(out, form, chart, thread, top, pieces)?;
            top += 24;
        }
        thread += 1;
    }
    Ok(())
}

/// Where an event stands that begins behind so many steps.
fn place_of(chart: &Chart, begin: u64) -> u64
    requires { begin ≤ chart.now.steps }
    ensures { result ≡ place_of chart.now begin }
{
    80 + (u128::from(begin) * u128::from(chart.width - 100) / u128::from(chart.steps.max(1))) as u64
}

/// Whether the number of an event is told.
fn is_told(chart: &Chart, event: u64) -> bool
    requires { chart.now.first ≤ event }
    ensures { result ≡ is_told chart.now event }
{
    (event - chart.first) % (chart.events / 20 + 1) == 0
}

/// Half of what the number of an event takes: 4 pixels for each of its digits, and 2 more.
fn half_of(event: u64) -> u64
    ensures half { result ≡ half_of event }
    ensures small { result ≤ 162 }
{
    let digits = itoa::Buffer::new().format(event).len() as u64;
    4 * digits + 2
}

/// Where the middle of its number stands.
fn middle_of(chart: &Chart, event: u64, begin: u64) -> u64
    requires { begin ≤ chart.now.steps }
    ensures middle { result ≡ middle_of chart.now event begin }
    ensures within { result ≤ 4000 }
{
    place_of(chart, begin).min(chart.width - half_of(event))
}

/// Whether it has room where the numbers before it end at place `free`.
fn has_room(chart: &Chart, event: u64, begin: u64, free: u64) -> bool
    requires begin { begin ≤ chart.now.steps }
    requires free { free ≤ 4162 }
    ensures { result ≡ has_room chart.now event begin free }
{
    free + half_of(event) <= middle_of(chart, event, begin)
}

/// Where the numbers end behind it.
fn free_behind(chart: &Chart, event: u64, begin: u64, free: u64) -> u64
    requires event { chart.now.first ≤ event }
    requires begin { begin ≤ chart.now.steps }
    requires free { free ≤ 4162 }
    ensures free { result ≡ free_behind chart.now event begin free }
    ensures within { result ≤ 4162 }
{
    if is_told(chart, event) && has_room(chart, event, begin, free) {
        middle_of(chart, event, begin) + half_of(event)
    } else {
        free
    }
}

/// A line at a place, down to where the rows end.
fn write_line<W: Write>(out: &mut W, place: u64, bottom: u64) -> Result<()>
    ensures { OnOk result (Appends (W.contents out.old) (W.contents out.new)
        (line_text place bottom)) }
{
    write_parts(
        out,
        &[
            Part::Text(b"<line class=\"tick\" x1=\""),
            Part::Number(place),
            Part::Text(b"\" x2=\""),
            Part::Number(place),
            Part::Text(b"\" y1=\"74\" y2=\""),
            Part::Number(bottom),
            Part::Text(b"\"/>"),
        ],
    )
}

/// The number of an event, with its middle at a place.
fn write_number<W: Write>(out: &mut W, event: u64, middle: u64, bottom: u64) -> Result<()>
    requires { bottom ≤ 1616 }
    ensures { OnOk result (Appends (W.contents out.old) (W.contents out.new)
        (number_text event middle bottom)) }
{
    write_parts(
        out,
        &[
            Part::Text(b"<text text-anchor=\"middle\" fill=\"#555\" x=\""),
            Part::Number(middle),
            Part::Text(b"\" y=\""),
            Part::Number(bottom + 14),
            Part::Text(b"\">"),
            Part::Number(event),
            Part::Text(b"</text>"),
        ],
    )
}

/// The number of an event, where it has room.
#[tactic(auto, using(ckrt_look_calls::proofs::AppendLemmas::appends_none))]
fn write_label<W: Write>(
    out: &mut W,
    chart: &Chart,
    event: u64,
    begin: u64,
    free: u64,
) -> Result<()>
    requires begin { begin ≤ chart.now.steps }
    requires free { free ≤ 4162 }
    ensures { OnOk result (Appends (W.contents out.old) (W.contents out.new)
        (label_text chart.now event begin free)) }
{
    if !has_room(chart, event, begin, free) {
        return Ok(());
    }
    write_number(out, event, middle_of(chart, event, begin), bottom(chart))
}

/// The tick of an event.
fn write_tick<W: Write>(out: &mut W, chart: &Chart, event: u64, begin: u64, free: u64) -> Result<()>
    requires begin { begin ≤ chart.now.steps }
    requires free { free ≤ 4162 }
    ensures { OnOk result (Appends (W.contents out.old) (W.contents out.new)
        (tick_text chart.now event begin free)) }
{
    write_line(out, place_of(chart, begin), bottom(chart))?;
    write_label(out, chart, event, begin, free)?;
    out.write_all(b"\n")
}

/// The instant of an event.
fn write_instant<W: Write>(out: &mut W, event: u64, begin: u64) -> Result<()>
    ensures { OnOk result (Appends (W.contents out.old) (W.contents out.new)
        (instant_text event begin)) }
{
    write_parts(
        out,
        &[
            Part::Text(b",\n{\"name\":\"event "),
            Part::Number(event),
            Part::Text(b"\",\"ph\":\"i\",\"ts\":"),
            Part::Number(begin),
            Part::Text(b",\"pid\":1,\"tid\":0,\"s\":\"p\"}"),
        ],
    )
}

/// What is told of an event, where the numbers before it end at place `free`.
#[tactic(auto, using(ckrt_look_calls::proofs::AppendLemmas::appends_none))]
fn write_mark<W: Write>(
    out: &mut W,
    form: Form,
    chart: &Chart,
    event: u64,
    begin: u64,
    free: u64,
) -> Result<()>
    requires event { chart.now.first ≤ event }
    requires begin { begin ≤ chart.now.steps }
    requires free { free ≤ 4162 }
    ensures { OnOk result (Appends (W.contents out.old) (W.contents out.new)
        (mark_text form chart.now event begin free)) }
{
    match form {
        Form::Events => write_instant(out, event, begin),
        Form::Picture if is_told(chart, event) => write_tick(out, chart, event, begin, free),
        Form::Picture => Ok(()),
    }
}

/// What is told of all events.
fn write_marks<W: Write>(out: &mut W, form: Form, chart: &Chart, begins: &[u64]) -> Result<()>
    requires many { length begins.now ≤ chart.now.events }
    requires each { AreUpTo chart.now.steps begins.now }
    ensures { OnOk result (Appends (W.contents out.old) (W.contents out.new)
        (marks_text form chart.now chart.now.first 0 begins.now)) }
{
    let mut event = chart.first;
    let mut free = 0;
    for begin in begins {
        write_mark(out, form, chart, event, *begin, free)?;
        free = free_behind(chart, event, *begin, free);
        event += 1;
    }
    Ok(())
}

/// The begin of a picture, up to how many steps there are.
fn write_heading<W: Write>(out: &mut W, chart: &Chart) -> Result<()>
    ensures { OnOk result
        (Appends (W.contents out.old) (W.contents out.new) (heading_text chart.now)) }
{
    write_parts(
        out,
        &[
            Part::Text(b"<svg xmlns=\"http://www.w3.org/2000/svg\" width=\""),
            Part::Number(chart.width),
            Part::Text(b"\" height=\""),
            Part::Number(80 + 24 * chart.rows + 24),
            Part::Text(b"\" font-family=\"sans-serif\" font-size=\"12\">\n"),
            Part::Text(
                b"<rect width=\"100%\" height=\"100%\" fill=\"white\"/>\n<text x=\"10\" y=\"20\" font-size=\"14\">events ",
            ),
            Part::Number(chart.first),
            Part::Text(b" to "),
            Part::Number(chart.first + chart.events),
            Part::Text(b": "),
            Part::Number(chart.steps),
            Part::Text(b" steps"),
        ],
    )
}

/// How many steps a column has, where there are columns.
#[tactic(auto, using(ckrt_look_calls::proofs::AppendLemmas::appends_none))]
fn write_scale<W: Write>(out: &mut W, chart: &Chart) -> Result<()>
    ensures { OnOk result
        (Appends (W.contents out.old) (W.contents out.new) (scale_text chart.now)) }
{
    if chart.span == 0 {
        return Ok(());
    }
    write_parts(
        out,
        &[
            Part::Text(b", "),
            Part::Number(chart.span),
            Part::Text(b" in each column"),
        ],
    )
}

/// The begin of a picture.
#[tactic(auto, using(ckrt_look_calls::proofs::AppendLemmas::appends_both))]
fn write_page<W: Write>(out: &mut W, chart: &Chart) -> Result<()>
    ensures { OnOk result
        (Appends (W.contents out.old) (W.contents out.new) (page_text chart.now)) }
{
    write_heading(out, chart)?;
    write_scale(out, chart)?;
    out.write_all(b"</text>\n")
}

/// The colours.
fn write_style<W: Write>(out: &mut W) -> Result<()>
    ensures { OnOk result (Appends (W.contents out.old) (W.contents out.new) STYLE) }
{
    write_parts(
        out,
        &[
            Part::Text(
                b"<style>.running{fill:#2e7d32}.mutex{fill:#d32f2f}.condition{fill:#f9a825}.barrier{fill:#7b1fa2}",
            ),
            Part::Text(
                b".rwlock{fill:#ef6c00}.join{fill:#90a4ae}.input{fill:#0288d1}.sleep{fill:#80deea}",
            ),
            Part::Text(b".ready{fill:#616161}.ended{fill:#e0e0e0}.tick{stroke:#ccc}</style>\n"),
        ],
    )
}

/// What the colours stand for.
fn write_legend<W: Write>(out: &mut W) -> Result<()>
    ensures { OnOk result (Appends (W.contents out.old) (W.contents out.new) LEGEND) }
{
    write_parts(
        out,
        &[
            Part::Text(
                b"<rect class=\"running\" x=\"10\" y=\"30\" width=\"12\" height=\"12\"/><text x=\"26\" y=\"41\">running</text>\n",
            ),
            Part::Text(
                b"<rect class=\"mutex\" x=\"88\" y=\"30\" width=\"12\" height=\"12\"/><text x=\"104\" y=\"41\">mutex</text>\n",
            ),
            Part::Text(
                b"<rect class=\"condition\" x=\"166\" y=\"30\" width=\"12\" height=\"12\"/><text x=\"182\" y=\"41\">condition</text>\n",
            ),
            Part::Text(
                b"<rect class=\"barrier\" x=\"244\" y=\"30\" width=\"12\" height=\"12\"/><text x=\"260\" y=\"41\">barrier</text>\n",
            ),
            Part::Text(
                b"<rect class=\"rwlock\" x=\"322\" y=\"30\" width=\"12\" height=\"12\"/><text x=\"338\" y=\"41\">rwlock</text>\n",
            ),
            Part::Text(
                b"<rect class=\"join\" x=\"10\" y=\"48\" width=\"12\" height=\"12\"/><text x=\"26\" y=\"59\">join</text>\n",
            ),
            Part::Text(
                b"<rect class=\"input\" x=\"88\" y=\"48\" width=\"12\" height=\"12\"/><text x=\"104\" y=\"59\">input</text>\n",
            ),
            Part::Text(
                b"<rect class=\"sleep\" x=\"166\" y=\"48\" width=\"12\" height=\"12\"/><text x=\"182\" y=\"59\">sleep</text>\n",
            ),
            Part::Text(
                b"<rect class=\"ready\" x=\"244\" y=\"48\" width=\"12\" height=\"12\"/><text x=\"260\" y=\"59\">ready</text>\n",
            ),
            Part::Text(
                b"<rect class=\"ended\" x=\"322\" y=\"48\" width=\"12\" height=\"12\"/><text x=\"338\" y=\"59\">ended</text>\n",
            ),
        ],
    )
}

/// The begin of a picture, with its colours.
#[tactic(auto, using(ckrt_look_calls::proofs::AppendLemmas::appends_both))]
fn write_opening<W: Write>(out: &mut W, chart: &Chart) -> Result<()>
    ensures { OnOk result (Appends (W.contents out.old) (W.contents out.new)
        (page_text chart.now ++ STYLE ++ LEGEND)) }
{
    write_page(out, chart)?;
    write_style(out)?;
    write_legend(out)
}

/// The begin.
fn write_begin<W: Write>(out: &mut W, form: Form, chart: &Chart) -> Result<()>
    ensures { OnOk result
        (Appends (W.contents out.old) (W.contents out.new) (begin_text form chart.now)) }
{
    match form {
        Form::Picture => write_opening(out, chart),
        Form::Events => out.write_all(
            b"{\"traceEvents\":[\n{\"name\":\"process_name\",\"ph\":\"M\",\"pid\":1,\"args\":{\"name\":\"guest\"}}",
        ),
    }
}

/// A chart of threads with these pieces, and of events that begin behind so many steps.
#[tactic(auto, using(ckrt_look_calls::proofs::AppendLemmas::appends_both))]
pub(crate) fn write_chart<W: Write>(
    out: &mut W,
    form: Form,
    chart: &Chart,
    begins: &[u64],
    tracks: &[Vec<Piece>],
) -> Result<()>
    requires events { length begins.now ≤ chart.now.events }
    requires begins { AreUpTo chart.now.steps begins.now }
    requires threads { length tracks.now ≤ 64 }
    requires few { (i : ℕ) → i < length tracks.now
        → length (laid (pieces_at tracks.now i)) < 2 ^ 64 }
    ensures { OnOk result (Appends (W.contents out.old) (W.contents out.new)
        (chart_text form chart.now begins.now (tracks_of tracks.now))) }
{
    write_begin(out, form, chart)?;
    write_marks(out, form, chart, begins)?;
    write_rows(out, form, chart, tracks)?;
    out.write_all(end_of(form))
}
