//! What a server's objects know.

ghost use Rattle.std.specs.Prelude.{◌≡◌, ◌++◌, flat_map, OnOk};
ghost use Rattle.inside_core.specs.Objects.{about_of, kind_of, name_of, number_of, object_number, metric_text, numbers_text};
ghost use Rattle.inside_core.specs.Objects.{operation_labels, end_line, tally_ends, object_ends, calls_text};
ghost use Rattle.inside_core.specs.Objects.{name_now, about_now, number_now, tally_now, object_now, now_text, objects_text};

use crate::metric::{MetricKind, push_head, push_label, push_of_object, push_sample};
use crate::numbers::{OperationTally, SeenObject};
use std::alloc::AllocError;

// A number of each object.
#[derive(Clone, Copy)]
enum OfObject {
    Sessions,
    Given,
    Limit,
    Cancelled,
    Held,
}

// How many calls of each operation there are now, and for how long one waits.
#[derive(Clone, Copy)]
enum Current {
    Running,
    Waiting,
    Waited,
}

fn name_of_metric(of: OfObject) -> &'static [u8]
    ensures { result.now ≡ name_of of }
{
    match of {
        OfObject::Sessions => b"pathserve_sessions",
        OfObject::Given => b"pathserve_numbers",
        OfObject::Limit => b"pathserve_numbers_limit",
        OfObject::Cancelled => b"pathserve_cancelled_total",
        OfObject::Held => b"pathserve_holds",
    }
}

fn about_metric(of: OfObject) -> &'static [u8]
    ensures { result.now ≡ about_of of }
{
    match of {
        OfObject::Sessions => b"Sessions of clients that are there.",
        OfObject::Given => b"Numbers of calls that are taken of this epoch.",
        OfObject::Limit => b"Numbers of calls of an epoch, at most.",
        OfObject::Cancelled => b"Calls that were cancelled since the start.",
        OfObject::Held => b"Calls that are held now.",
    }
}

fn kind_of_metric(of: OfObject) -> MetricKind
    ensures { result ≡ kind_of of }
{
    match of {
        OfObject::Sessions => MetricKind::Gauge,
        OfObject::Given => MetricKind::Gauge,
        OfObject::Limit => MetricKind::Gauge,
        OfObject::Cancelled => MetricKind::Counter,
        OfObject::Held => MetricKind::Gauge,
    }
}

fn number_in(of: OfObject, seen: &SeenObject) -> u64
    ensures { result ≡ number_of of seen.now }
{
    match of {
        OfObject::Sessions => seen.sessions,
        OfObject::Given => seen.given,
        OfObject::Limit => seen.limit,
        OfObject::Cancelled => seen.cancelled,
        OfObject::Held => seen.held,
    }
}

// Adds the sample of an object.
fn push_number(out: &mut Vec<u8>, of: OfObject, seen: &SeenObject) -> Result<(), AllocError>
    ensures { OnOk result (out.new.items ≡ out.old.items ++ object_number of seen.now) }
{
    push_of_object(out, name_of_metric(of), &seen.name, number_in(of, seen))
}

// Adds the samples of these objects.
fn push_each(out: &mut Vec<u8>, of: OfObject, objects: &[SeenObject]) -> Result<(), AllocError>
    ensures { OnOk result (out.new.items ≡ out.old.items ++ flat_map (object_number of) objects.now) }
{
    match objects {
        [] => Ok(()),
        [first, more @ ..] => {
            push_number(out, of, first)?;
            push_each(out, of, more)
        }
    }
}

// Adds a metric that has a number for each object.
fn push_metric(out: &mut Vec<u8>, of: OfObject, objects: &[SeenObject]) -> Result<(), AllocError>
    ensures { OnOk result (out.new.items ≡ out.old.items ++ metric_text of objects.now) }
{
    push_head(
        out,
        name_of_metric(of),
        kind_of_metric(of),
        about_metric(of),
    )?;
    push_each(out, of, objects)
}

// Adds the numbers of these objects.
fn push_numbers(out: &mut Vec<u8>, objects: &[SeenObject]) -> Result<(), AllocError>
    ensures { OnOk result (out.new.items ≡ out.old.items ++ numbers_text objects.now) }
{
    push_metric(out, OfObject::Sessions, objects)?;
    push_metric(out, OfObject::Given, objects)?;
    push_metric(out, OfObject::Limit, objects)?;
    push_metric(out, OfObject::Cancelled, objects)?;
    push_metric(out, OfObject::Held, objects)
}

// Adds the labels of an operation.
fn push_operation(out: &mut Vec<u8>, object: &[u8], operation: &[u8]) -> Result<(), AllocError>
    ensures { OnOk result (out.new.items ≡ out.old.items ++ operation_labels object.now operation.now) }
{
    push_label(out, b"{object=\"", object)?;
    push_label(out, b",operation=\"", operation)
}

// Adds how many calls of an operation ended so.
fn push_end(
    out: &mut Vec<u8>,
    object: &[u8],
    operation: &[u8],
    end: &[u8],
    number: u64,
) -> Result<(), AllocError>
    ensures { OnOk result (out.new.items ≡ out.old.items ++ end_line object.now operation.now end.now number) }
{
    out.extend_from_slice(b"pathserve_calls_total")?;
    push_operation(out, object, operation)?;
    push_label(out, b",end=\"", end)?;
    push_sample(out, b"} ", number)
}

// Adds how the calls of an operation ended.
fn push_ends(out: &mut Vec<u8>, object: &[u8], tally: &OperationTally) -> Result<(), AllocError>
    ensures { OnOk result (out.new.items ≡ out.old.items ++ tally_ends object.now tally.now) }
{
    push_end(out, object, &tally.name, b"done", tally.ends.done)?;
    push_end(out, object, &tally.name, b"refused", tally.ends.refused)?;
    push_end(out, object, &tally.name, b"failed", tally.ends.failed)?;
    Ok(())
}

// Adds how the calls of these operations ended.
fn push_all_ends(
    out: &mut Vec<u8>,
    object: &[u8],
    operations: &[OperationTally],
) -> Result<(), AllocError>
    ensures { OnOk result (out.new.items ≡ out.old.items ++ flat_map (tally_ends object.now) operations.now) }
{
    for tally in operations {
        push_ends(out, object, tally)?;
    }
    Ok(())
}

// Adds how the calls of these objects ended.
fn push_calls_of(out: &mut Vec<u8>, objects: &[SeenObject]) -> Result<(), AllocError>
    ensures { OnOk result (out.new.items ≡ out.old.items ++ flat_map object_ends objects.now) }
{
    match objects {
        [] => Ok(()),
        [first, more @ ..] => {
            push_all_ends(out, &first.name, &first.operations)?;
            push_calls_of(out, more)
        }
    }
}

// Adds the metric of calls that ended.
fn push_calls(out: &mut Vec<u8>, objects: &[SeenObject]) -> Result<(), AllocError>
    ensures { OnOk result (out.new.items ≡ out.old.items ++ calls_text objects.now) }
{
    push_head(
        out,
        b"pathserve_calls_total",
        MetricKind::Counter,
        b"Calls that ended since the start, by how.",
    )?;
    push_calls_of(out, objects)
}

fn name_of_now(current: Current) -> &'static [u8]
    ensures { result.now ≡ name_now current }
{
    match current {
        Current::Running => b"pathserve_running",
        Current::Waiting => b"pathserve_waiting",
        Current::Waited => b"pathserve_wait_seconds",
    }
}

fn about_of_now(current: Current) -> &'static [u8]
    ensures { result.now ≡ about_now current }
{
    match current {
        Current::Running => b"Calls that run now.",
        Current::Waiting => b"Calls that wait now.",
        Current::Waited => b"For how long the call waits that waits longest.",
    }
}

// So many calls there are, or so many seconds one waits.
fn number_of_now(current: Current, tally: &OperationTally) -> u64
    ensures { result ≡ number_now current tally.now }
{
    match current {
        Current::Running => tally.running,
        Current::Waiting => tally.waiting,
        Current::Waited => tally.waited,
    }
}

// Adds the number of an operation.
fn push_now(
    out: &mut Vec<u8>,
    current: Current,
    object: &[u8],
    tally: &OperationTally,
) -> Result<(), AllocError>
    ensures { OnOk result (out.new.items ≡ out.old.items ++ tally_now current object.now tally.now) }
{
    out.extend_from_slice(name_of_now(current))?;
    push_operation(out, object, &tally.name)?;
    push_sample(out, b"} ", number_of_now(current, tally))
}

// Adds the numbers of these operations.
fn push_all_now(
    out: &mut Vec<u8>,
    current: Current,
    object: &[u8],
    operations: &[OperationTally],
) -> Result<(), AllocError>
    ensures { OnOk result (out.new.items ≡ out.old.items ++ flat_map (tally_now current object.now) operations.now) }
{
    for tally in operations {
        push_now(out, current, object, tally)?;
    }
    Ok(())
}

// Adds the numbers of the operations of these objects.
fn push_now_of(
    out: &mut Vec<u8>,
    current: Current,
    objects: &[SeenObject],
) -> Result<(), AllocError>
    ensures { OnOk result (out.new.items ≡ out.old.items ++ flat_map (object_now current) objects.now) }
{
    match objects {
        [] => Ok(()),
        [first, more @ ..] => {
            push_all_now(out, current, &first.name, &first.operations)?;
            push_now_of(out, current, more)
        }
    }
}

// Adds a metric that has a number for each operation.
fn push_current(
    out: &mut Vec<u8>,
    current: Current,
    objects: &[SeenObject],
) -> Result<(), AllocError>
    ensures { OnOk result (out.new.items ≡ out.old.items ++ now_text current objects.now) }
{
    push_head(
        out,
        name_of_now(current),
        MetricKind::Gauge,
        about_of_now(current),
    )?;
    push_now_of(out, current, objects)
}

/// Adds the numbers of objects, and of their operations. The error is that memory was refused; how much then stands in `out`
/// is not said.
pub fn push_objects(out: &mut Vec<u8>, objects: &[SeenObject]) -> Result<(), AllocError>
    ensures { OnOk result (out.new.items ≡ out.old.items ++ objects_text objects.now) }
{
    push_numbers(out, objects)?;
    push_calls(out, objects)?;
    push_current(out, Current::Running, objects)?;
    push_current(out, Current::Waiting, objects)?;
    push_current(out, Current::Waited, objects)
}
