//! Lines that are told to the one at a place. Where nobody is there, nothing is told.

ghost use Rattle.std.specs.Prelude.{◌≡◌, [], OnOk};
ghost use Rattle.session_text.specs.Answers.{said_of, said_text};
ghost use Rattle.keep_loop.specs.Posts.{Tells};
ghost use Rattle.client_core.specs.State.{peers_of, told_to};

use client_core::clients::ClientPlaces;
use keep_loop::Post;
use session_text::line::{AnyLine, push_line};
use std::alloc::AllocError;

/// Tells the one at a place a text that was made.
pub(crate) fn tell(
    clients: &ClientPlaces,
    place: usize,
    line: &[u8],
    post: &mut Post,
) -> Result<(), AllocError>
    ensures { OnOk result (Tells post.old post.new (told_to (peers_of clients.now) place line.now) []) }
{
    match clients.who(place) {
        Some(who) => {
            post.tell(who, line)?;
            Ok(())
        }
        None => Ok(()),
    }
}

/// Tells a line.
pub(crate) fn tell_line(
    clients: &ClientPlaces,
    out: &mut Vec<u8>,
    place: usize,
    line: AnyLine<'_>,
    post: &mut Post,
) -> Result<(), AllocError>
    ensures { OnOk result (Tells post.old post.new (told_to (peers_of clients.now) place (said_text (said_of line.entry))) []) }
{
    out.clear();
    push_line(out, line)?;
    tell(clients, place, out, post)
}
