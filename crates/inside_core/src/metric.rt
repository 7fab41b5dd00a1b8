//! Metrics in the text format of Prometheus.

ghost use Rattle.std.specs.Prelude.{◌≡◌, ◌++◌, OnOk};
ghost use Rattle.inside_core.specs.Metrics.{head, kind_text, label_text, sample_text, server_labels, one_text, object_line, journal_line};

use std::alloc::AllocError;
use value_core::reply::push_count;

/// What the number of a metric does.
#[derive(Clone, Copy, Debug, PartialEq, Eq)]
pub enum MetricKind {
    /// It only grows, from 0 at the start.
    Counter,
    /// It goes up and down.
    Gauge,
    /// How many of some numbers are at most as great as each of some bounds, and their sum.
    Histogram,
}

// Adds a kind, and the end of the line.
fn push_kind(out: &mut Vec<u8>, kind: MetricKind) -> Result<(), AllocError>
    ensures { OnOk result (out.new.items ≡ out.old.items ++ kind_text kind) }
{
    match kind {
        MetricKind::Counter => out.extend_from_slice(b" counter\n"),
        MetricKind::Gauge => out.extend_from_slice(b" gauge\n"),
        MetricKind::Histogram => out.extend_from_slice(b" histogram\n"),
    }
}

// Adds what a metric is about, and its kind.
pub(crate) fn push_head(
    out: &mut Vec<u8>,
    name: &[u8],
    kind: MetricKind,
    about: &[u8],
) -> Result<(), AllocError>
    ensures { OnOk result (out.new.items ≡ out.old.items ++ head name.now kind about.now) }
{
    out.extend_from_slice(b"# HELP ")?;
    out.extend_from_slice(name)?;
    out.push(b' ')?;
    out.extend_from_slice(about)?;
    out.extend_from_slice(b"\n# TYPE ")?;
    out.extend_from_slice(name)?;
    push_kind(out, kind)
}

// Adds a label, behind what stands before it.
pub(crate) fn push_label(out: &mut Vec<u8>, before: &[u8], value: &[u8]) -> Result<(), AllocError>
    ensures { OnOk result (out.new.items ≡ out.old.items ++ label_text before.now value.now) }
{
    out.extend_from_slice(before)?;
    out.extend_from_slice(value)?;
    out.push(b'"')?;
    Ok(())
}

// Adds a number behind a name and its labels, and the end of the line.
pub(crate) fn push_sample(out: &mut Vec<u8>, before: &[u8], number: u64) -> Result<(), AllocError>
    ensures { OnOk result (out.new.items ≡ out.old.items ++ sample_text before.now number) }
{
    push_count(out, before, number)
}

// Adds the label of a server, behind which others may come.
pub(crate) fn push_server(out: &mut Vec<u8>, label: &[u8]) -> Result<(), AllocError>
    ensures { OnOk result (out.new.items ≡ out.old.items ++ server_labels label.now) }
{
    out.push(b'{')?;
    out.extend_from_slice(label)?;
    Ok(())
}

// Adds a metric that has one number, with the label of the server.
pub(crate) fn push_one(
    out: &mut Vec<u8>,
    label: &[u8],
    name: &[u8],
    kind: MetricKind,
    about: &[u8],
    number: u64,
) -> Result<(), AllocError>
    ensures { OnOk result (out.new.items ≡ out.old.items ++ one_text label.now name.now kind about.now number) }
{
    push_head(out, name, kind, about)?;
    out.extend_from_slice(name)?;
    push_server(out, label)?;
    push_sample(out, b"} ", number)
}

// Adds the sample of the journal of an object, with the label of the server.
pub(crate) fn push_of_journal(
    out: &mut Vec<u8>,
    label: &[u8],
    name: &[u8],
    object: &[u8],
    number: u64,
) -> Result<(), AllocError>
    ensures { OnOk result (out.new.items ≡ out.old.items ++ journal_line label.now name.now object.now number) }
{
    out.extend_from_slice(name)?;
    push_server(out, label)?;
    push_label(out, b",object=\"", object)?;
    push_sample(out, b"} ", number)
}

// Adds the sample of an object.
pub(crate) fn push_of_object(
    out: &mut Vec<u8>,
    name: &[u8],
    object: &[u8],
    number: u64,
) -> Result<(), AllocError>
    ensures { OnOk result (out.new.items ≡ out.old.items ++ object_line name.now object.now number) }
{
    out.extend_from_slice(name)?;
    push_label(out, b"{object=\"", object)?;
    push_sample(out, b"} ", number)
}
