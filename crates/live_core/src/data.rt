//! Arguments and replies are data that can be written, and values are in their limits. Each is looked at for that alone.

ghost use Rattle.std.specs.Prelude.{All};
ghost use Rattle.value_core.specs.Datum.{IsDatum};
ghost use Rattle.live_core.specs.declared.call.Ran.{Ran as ARan};
ghost use Rattle.live_core.specs.Hall.{Every};
ghost use Rattle.value_core.specs.Contents.{IsContents};
ghost use Rattle.live_core.specs.Calls.{RepliesDatum};

use crate::call::Ran;
use apply_core::reply::Reply;
use value_core::datum::Datum;
use value_core::value::Value;

/// These are data.
pub(crate) fn are_data(all: &[Datum])
    ensures { All IsDatum all.now }
{
    match all.split_first() {
        None => {}
        Some((first, rest)) => {
            first.elem();
            are_data(rest);
        }
    }
}

/// These are contents in their limits.
pub(crate) fn are_contents(all: &[Value])
    ensures { All IsContents all.now }
{
    match all.split_first() {
        None => {}
        Some((first, rest)) => {
            first.kind();
            are_contents(rest);
        }
    }
}

/// So is what was replied, where it is what a function replied.
pub(crate) fn is_data(reply: &Reply)
    ensures { RepliesDatum reply.now }
{
    if let Reply::Done(Some(datum)) = reply {
        datum.elem();
    }
}

/// So are the replies of these.
pub(crate) fn reply_data(all: &[Ran])
    ensures { Every (λ (r : ARan). RepliesDatum r.reply) all.now }
{
    match all.split_first() {
        None => {}
        Some((first, rest)) => {
            is_data(&first.reply);
            reply_data(rest);
        }
    }
}
