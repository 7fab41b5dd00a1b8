//! What is outside of a server's objects.

ghost use Rattle.std.specs.Prelude.{◌≡◌, ◌++◌, flat_map, OnOk};
ghost use Rattle.inside_core.specs.Server.{about_of, journal_number, journal_text, journals_text, kind_of, name_of, number_of, server_text, syncs_text, outside_text};

use crate::durations::push_durations;
use crate::metric::{MetricKind, push_head, push_of_journal, push_one};
use crate::numbers::{Durations, Server, Stored};
use std::alloc::AllocError;

// A number of each journal.
#[derive(Clone, Copy)]
enum OfServer {
    Epoch,
    Bytes,
    Syncs,
    Synced,
    Failed,
}

fn name_of_metric(of: OfServer) -> &'static [u8]
    ensures { result.now ≡ name_of of }
{
    match of {
        OfServer::Epoch => b"pathserve_epoch",
        OfServer::Bytes => b"pathserve_journal_bytes",
        OfServer::Syncs => b"pathserve_syncs_total",
        OfServer::Synced => b"pathserve_sync_seconds",
        OfServer::Failed => b"pathserve_epochs_failed_total",
    }
}

fn about_metric(of: OfServer) -> &'static [u8]
    ensures { result.now ≡ about_of of }
{
    match of {
        OfServer::Epoch => b"The number of the epoch.",
        OfServer::Bytes => b"Bytes of lines in the journal.",
        OfServer::Syncs => b"How often the journal was stored since the start.",
        OfServer::Synced => b"Unix time when it was last stored.",
        OfServer::Failed => b"How often no epoch could begin since the start.",
    }
}

fn kind_of_metric(of: OfServer) -> MetricKind
    ensures { result ≡ kind_of of }
{
    match of {
        OfServer::Epoch => MetricKind::Gauge,
        OfServer::Bytes => MetricKind::Gauge,
        OfServer::Syncs => MetricKind::Counter,
        OfServer::Synced => MetricKind::Gauge,
        OfServer::Failed => MetricKind::Counter,
    }
}

fn number_in(of: OfServer, stored: &Stored) -> u64
    ensures { result ≡ number_of of stored.now }
{
    match of {
        OfServer::Epoch => stored.epoch,
        OfServer::Bytes => stored.bytes,
        OfServer::Syncs => stored.syncs,
        OfServer::Synced => stored.synced,
        OfServer::Failed => stored.failed,
    }
}

// Adds the numbers of the server.
fn push_numbers(out: &mut Vec<u8>, label: &[u8], server: Server) -> Result<(), AllocError>
    ensures { OnOk result (out.new.items ≡ out.old.items ++ server_text label.now server) }
{
    push_one(
        out,
        label,
        b"pathserve_status_seconds",
        MetricKind::Gauge,
        b"Unix time of this text.",
        server.looked,
    )?;
    push_one(
        out,
        label,
        b"pathserve_start_seconds",
        MetricKind::Gauge,
        b"Unix time of the start.",
        server.start,
    )?;
    push_one(
        out,
        label,
        b"pathserve_every_seconds",
        MetricKind::Gauge,
        b"So often this text is written.",
        server.every,
    )?;
    push_one(
        out,
        label,
        b"pathserve_connections",
        MetricKind::Gauge,
        b"Connections now.",
        server.connections,
    )?;
    push_one(
        out,
        label,
        b"pathserve_connections_total",
        MetricKind::Counter,
        b"Connections since the start.",
        server.total,
    )?;
    push_one(
        out,
        label,
        b"pathserve_connections_limit",
        MetricKind::Gauge,
        b"Connections at once, at most.",
        server.limit,
    )?;
    push_one(
        out,
        label,
        b"pathserve_memory_bytes",
        MetricKind::Gauge,
        b"Memory of the server.",
        server.memory,
    )
}

// Adds the sample of a journal.
fn push_journal(
    out: &mut Vec<u8>,
    label: &[u8],
    of: OfServer,
    stored: &Stored,
) -> Result<(), AllocError>
    ensures { OnOk result (out.new.items ≡ out.old.items ++ journal_number label.now of stored.now) }
{
    push_of_journal(
        out,
        label,
        name_of_metric(of),
        &stored.name,
        number_in(of, stored),
    )
}

// Adds the samples of these journals.
fn push_journals(
    out: &mut Vec<u8>,
    label: &[u8],
    of: OfServer,
    journals: &[Stored],
) -> Result<(), AllocError>
    ensures { OnOk result (out.new.items ≡ out.old.items ++ flat_map (journal_number label.now of) journals.now) }
{
    match journals {
        [] => Ok(()),
        [first, more @ ..] => {
            push_journal(out, label, of, first)?;
            push_journals(out, label, of, more)
        }
    }
}

// Adds a metric that has a number for each journal.
fn push_metric(
    out: &mut Vec<u8>,
    label: &[u8],
    of: OfServer,
    journals: &[Stored],
) -> Result<(), AllocError>
    ensures { OnOk result (out.new.items ≡ out.old.items ++ journal_text label.now of journals.now) }
{
    push_head(
        out,
        name_of_metric(of),
        kind_of_metric(of),
        about_metric(of),
    )?;
    push_journals(out, label, of, journals)
}

// Adds the numbers of the journals.
fn push_all(out: &mut Vec<u8>, label: &[u8], journals: &[Stored]) -> Result<(), AllocError>
    ensures { OnOk result (out.new.items ≡ out.old.items ++ journals_text label.now journals.now) }
{
    push_metric(out, label, OfServer::Epoch, journals)?;
    push_metric(out, label, OfServer::Bytes, journals)?;
    push_metric(out, label, OfServer::Syncs, journals)?;
    push_metric(out, label, OfServer::Synced, journals)?;
    push_metric(out, label, OfServer::Failed, journals)
}

// Adds how long it took to store what was handed to the journals.
fn push_syncs(out: &mut Vec<u8>, label: &[u8], syncs: &Durations) -> Result<(), AllocError>
    ensures { OnOk result (out.new.items ≡ out.old.items ++ syncs_text label.now syncs.now) }
{
    push_durations(
        out,
        label,
        b"pathserve_sync_duration_seconds",
        b"How long it took to store a journal.",
        syncs,
    )
}

/// Adds the numbers of a server, and of the journals of its objects, and how long it took to store these, with a label of
/// it, as `labels::server_label` makes it. The error is that memory was refused; how much then stands in `out` is not said.
pub fn push_server(
    out: &mut Vec<u8>,
    label: &[u8],
    server: Server,
    journals: &[Stored],
    syncs: &Durations,
) -> Result<(), AllocError>
    ensures { OnOk result (out.new.items ≡ out.old.items ++ outside_text label.now server journals.now syncs.now) }
{
    push_numbers(out, label, server)?;
    push_all(out, label, journals)?;
    push_syncs(out, label, syncs)
}
