//! How far a history is, as it is told.
ghost use Rattle.std.specs.Prelude.{◌≡◌, ◌++◌, OnOk, decimal};
ghost use Rattle.ckrt_cli_reports.specs.Reaches.{help_line, help_of, kind_of, metric_lines, name_of, optional_lines, reach_lines, type_line, value_line};

use std::alloc::AllocError;
use std::fmt;

/// How far a history is.
#[derive(Clone, Copy, Debug, PartialEq, Eq)]
pub(crate) struct Reach {
    /// How many events came before its first one.
    pub(crate) first: u64,
    /// Behind how many events of its disk it ends.
    pub(crate) end: u64,
    /// How many bytes it takes, up to the gate that ends it.
    pub(crate) bytes: u64,
}

/// What is told of how far a history is.
#[derive(Clone, Copy, Debug, PartialEq, Eq)]
pub(crate) enum ReachMetric {
    /// How many events came before its first one.
    First,
    /// Behind how many events it ends.
    Events,
    /// How many bytes it takes.
    Bytes,
}

/// The name of a value.
fn name_of(metric: ReachMetric) -> &'static [u8]
    ensures { result.now ≡ name_of metric }
{
    match metric {
        ReachMetric::First => b"ckrt_history_first_event".as_slice(),
        ReachMetric::Events => b"ckrt_history_events_total".as_slice(),
        ReachMetric::Bytes => b"ckrt_history_bytes".as_slice(),
    }
}

/// What a value is.
fn help_of(metric: ReachMetric) -> &'static [u8]
    ensures { result.now ≡ help_of metric }
{
    match metric {
        ReachMetric::First => b"Events before the first one of the history.".as_slice(),
        ReachMetric::Events => {
            b"Events of the disk up to the last one that the history has.".as_slice()
        }
        ReachMetric::Bytes => {
            b"Bytes that the history takes, up to the gate that ends it.".as_slice()
        }
    }
}

/// Whether a value only grows.
fn kind_of(metric: ReachMetric) -> &'static [u8]
    ensures { result.now ≡ kind_of metric }
{
    match metric {
        ReachMetric::Events => b"counter".as_slice(),
        ReachMetric::First => b"gauge".as_slice(),
        ReachMetric::Bytes => b"gauge".as_slice(),
    }
}

/// A word.
fn push(out: &mut Vec<u8>, text: &[u8]) -> Result<(), AllocError>
    ensures { OnOk result (out.new.items ≡ out.old.items ++ text.now) }
{
    out.extend_from_slice(text)
}

/// A number in decimal.
fn push_number(out: &mut Vec<u8>, number: u64) -> Result<(), AllocError>
    ensures { OnOk result (out.new.items ≡ out.old.items ++ decimal number) }
{
    out.extend_from_slice(itoa::Buffer::new().format(number).as_bytes())
}

fn push_help(out: &mut Vec<u8>, metric: ReachMetric) -> Result<(), AllocError>
    ensures { OnOk result (out.new.items ≡ out.old.items ++ help_line metric) }
{
    push(out, b"# HELP ")?;
    push(out, name_of(metric))?;
    push(out, b" ")?;
    push(out, help_of(metric))?;
    push(out, b"\n")
}

fn push_type(out: &mut Vec<u8>, metric: ReachMetric) -> Result<(), AllocError>
    ensures { OnOk result (out.new.items ≡ out.old.items ++ type_line metric) }
{
    push(out, b"# TYPE ")?;
    push(out, name_of(metric))?;
    push(out, b" ")?;
    push(out, kind_of(metric))?;
    push(out, b"\n")
}

fn push_value(out: &mut Vec<u8>, metric: ReachMetric, value: u64) -> Result<(), AllocError>
    ensures { OnOk result (out.new.items ≡ out.old.items ++ value_line metric value) }
{
    push(out, name_of(metric))?;
    push(out, b" ")?;
    push_number(out, value)?;
    push(out, b"\n")
}

/// A value with what stands before it.
fn push_metric(out: &mut Vec<u8>, metric: ReachMetric, value: u64) -> Result<(), AllocError>
    ensures { OnOk result (out.new.items ≡ out.old.items ++ metric_lines metric value) }
{
    push_help(out, metric)?;
    push_type(out, metric)?;
    push_value(out, metric, value)
}

fn push_all(out: &mut Vec<u8>, reach: &Reach) -> Result<(), AllocError>
    ensures { OnOk result (out.new.items ≡ out.old.items ++ reach_lines reach.now) }
{
    push_metric(out, ReachMetric::First, reach.first)?;
    push_metric(out, ReachMetric::Events, reach.end)?;
    push_metric(out, ReachMetric::Bytes, reach.bytes)
}

/// Puts after a text how far a history is, in the text format of Prometheus, where that is known. Where the text has the room it takes no
/// memory.
pub(crate) fn push_reach(out: &mut Vec<u8>, reach: Option<Reach>) -> Result<(), AllocError>
    ensures { OnOk result (out.new.items ≡ out.old.items ++ optional_lines reach) }
{
    match reach {
        Some(reach) => push_all(out, &reach),
        None => Ok(()),
    }
}

/// What stands behind the other numbers of a line of progress: how far a history is, where that is known.
#[derive(Clone, Copy)]
pub(crate) struct Behind(pub(crate) Option<Reach>);

impl fmt::Display for Behind {
    fn fmt<W: fmt::Write>(&self, f: &mut fmt::Formatter<W>) -> fmt::Result {
        match self.0 {
            Some(reach) => write!(
                f,
                ", history of events {} to {} in {} bytes",
                reach.first, reach.end, reach.bytes
            ),
            None => Ok(()),
        }
    }
}
