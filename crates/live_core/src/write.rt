//! A front, as it is written: each piece adds its lines.
//!
//! A whole front is `push_object`, `push_source`, `push_parts` of `word_core`, `push_past`, `push_base`, then
//! `push_carried` for each waiting call, `push_client` for each client, and `push_kept` for each remembered call.
//! `push_front` does all of it.

ghost use Rattle.std.specs.Prelude.{◌≡◌, ◌++◌, ◌∷◌, [], OnOk, codes};
ghost use Rattle.decl_core.specs.ObjectMap.{object_of};
ghost use Rattle.word_core.specs.Words.{bare, behind_word, line_of};
ghost use Rattle.live_core.specs.Text.{object_words, source_words, base_words, run_words, carried_words, client_words};
ghost use Rattle.live_core.specs.Text.{answer_words, answer_of, call_words, kept_words, runs_text};

use crate::past::PastRun;
use apply_core::reply::Reply;
use decl_core::object::Object;
use path_tree::node::OpId;
use std::alloc::{AllocError, Global};
use value_core::datum::Datum;
use word_core::event::name_of;
use word_core::line::{push_data_line, push_line, push_more, push_more_data, push_words};
use word_core::reply::push_reply;
use word_core::word::Written;

/// Adds `object NAME epoch E`. The error is that memory was refused; how much then stands in `out` is not said.
pub fn push_object(out: &mut Vec<u8>, object: &Object, epoch: u64) -> Result<(), AllocError>
    ensures { OnOk result (out.new.items ≡ out.old.items ++ line_of (object_words object.now.name epoch)) }
{
    push_line(
        out,
        &[
            Written::Bare(b"object"),
            Written::Bare(object.name.as_bytes()),
            Written::Bare(b"epoch"),
            Written::Integer(epoch),
        ],
    )
}

/// Adds `source HASH`. The error is that memory was refused; how much then stands in `out` is not said.
pub fn push_source(alloc: Global, out: &mut Vec<u8>, source: u64) -> Result<(), AllocError>
    ensures { OnOk result (out.new.items ≡ out.old.items ++ line_of (source_words source)) }
{
    let bytes = source.to_be_bytes();
    let hex = hex::encode(alloc, bytes.as_slice())?;
    push_line(
        out,
        &[Written::Bare(b"source"), Written::Bare(hex.as_bytes())],
    )
}

// Adds a line of a past.
fn push_run(out: &mut Vec<u8>, object: &Object, run: &PastRun) -> Result<(), AllocError>
    ensures { OnOk result (out.new.items ≡ out.old.items
        ++ line_of (bare (codes "past") ∷ run_words (object_of object.now) run.now)) }
{
    match run {
        PastRun::Calls(op, count) => push_line(
            out,
            &[
                Written::Bare(b"past"),
                Written::Bare(name_of(object, *op)),
                Written::Integer(u64::from(*count)),
            ],
        ),
        PastRun::Begins(op) => push_line(
            out,
            &[
                Written::Bare(b"past"),
                Written::Bare(b"begin"),
                Written::Bare(name_of(object, *op)),
            ],
        ),
        PastRun::Ends(op) => push_line(
            out,
            &[
                Written::Bare(b"past"),
                Written::Bare(b"end"),
                Written::Bare(name_of(object, *op)),
            ],
        ),
    }
}

/// Adds the lines of a past. The error is that memory was refused; how much then stands in `out` is not said.
pub fn push_past(out: &mut Vec<u8>, object: &Object, past: &[PastRun]) -> Result<(), AllocError>
    ensures { OnOk result (out.new.items ≡ out.old.items ++ runs_text (object_of object.now) past.now) }
{
    for run in past {
        push_run(out, object, run)?;
    }
    Ok(())
}

/// Adds `base N`. The error is that memory was refused; how much then stands in `out` is not said.
pub fn push_base(out: &mut Vec<u8>, base: u64) -> Result<(), AllocError>
    ensures { OnOk result (out.new.items ≡ out.old.items ++ line_of (base_words base)) }
{
    push_line(out, &[Written::Bare(b"base"), Written::Integer(base)])
}

/// Adds the line of a waiting call: its number in this epoch, the number that was told, its session, its operation by
/// the place in the object, from 0, and its arguments. The error is that memory was refused; how much then stands in
/// `out` is not said.
pub fn push_carried(
    out: &mut Vec<u8>,
    object: &Object,
    number: u32,
    told: u64,
    session: u32,
    operation: OpId,
    arguments: &[Datum],
) -> Result<(), AllocError>
    ensures { OnOk result (out.new.items ≡ out.old.items
        ++ line_of (bare (codes "carried") ∷ carried_words (object_of object.now) (record {
          number = number;
          told = told;
          session = session;
          operation = operation;
          arguments = arguments.now;
        }))) }
{
    push_data_line(
        out,
        &[
            Written::Bare(b"carried"),
            Written::Integer(u64::from(number)),
            Written::Integer(told),
            Written::Session(u64::from(session)),
            Written::Bare(name_of(object, operation)),
        ],
        arguments,
    )
}

/// Adds the line of a client with a name: its session, its name, and how many keys it has used. The error is that
/// memory was refused; how much then stands in `out` is not said.
pub fn push_client(
    out: &mut Vec<u8>,
    session: u32,
    name: &[u8],
    keys: u64,
) -> Result<(), AllocError>
    ensures { OnOk result (out.new.items ≡ out.old.items ++ line_of (bare (codes "client") ∷ client_words (record {
      session = session;
      name = name.now;
      keys = keys;
    }))) }
{
    push_line(
        out,
        &[
            Written::Bare(b"client"),
            Written::Session(u64::from(session)),
            Written::Bare(name),
            Written::Integer(keys),
        ],
    )
}

// Adds how a remembered call ended behind other words.
fn push_answer(out: &mut Vec<u8>, reply: Option<&Reply>) -> Result<(), AllocError>
    ensures { OnOk result (out.new.items ≡ out.old.items ++ behind_word (answer_words (answer_of reply.entry))) }
{
    match reply {
        Some(reply) => push_reply(out, reply),
        None => push_more(out, &[Written::Bare(b"cancelled")]),
    }
}

// Adds an operation and its arguments behind other words, and the end of the line.
fn push_call(
    out: &mut Vec<u8>,
    object: &Object,
    operation: OpId,
    arguments: &[Datum],
) -> Result<(), AllocError>
    ensures { OnOk result (out.new.items ≡ out.old.items
        ++ (behind_word (call_words (object_of object.now) operation arguments.now) ++ 10 ∷ [])) }
{
    push_more(out, &[Written::Bare(name_of(object, operation))])?;
    push_more_data(out, arguments)?;
    out.push(b'\n')?;
    Ok(())
}

/// Adds the line of a remembered call: the session of its client, its key, the number that was told, what it replied (`None`
/// where it was cancelled), its operation by the place in the object, from 0, and its arguments. The error is that memory was refused; how much then
/// stands in `out` is not said.
pub fn push_kept(
    out: &mut Vec<u8>,
    object: &Object,
    session: u32,
    key: u64,
    told: u64,
    reply: Option<&Reply>,
    operation: OpId,
    arguments: &[Datum],
) -> Result<(), AllocError>
    ensures { OnOk result (out.new.items ≡ out.old.items
        ++ line_of (bare (codes "kept") ∷ kept_words (object_of object.now) (record {
          session = session;
          key = key;
          told = told;
          answer = answer_of reply.entry;
          operation = operation;
          arguments = arguments.now;
        }))) }
{
    push_words(
        out,
        &[
            Written::Bare(b"kept"),
            Written::Session(u64::from(session)),
            Written::Integer(key),
            Written::Integer(told),
        ],
    )?;
    push_answer(out, reply)?;
    push_call(out, object, operation, arguments)?;
    Ok(())
}
