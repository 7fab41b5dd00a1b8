//! The rows of clients.

ghost use Rattle.std.specs.Prelude.{◌≡◌, IfOk, codes, option_map};
ghost use Rattle.word_core.specs.View.{words_of as words_in};
ghost use Rattle.live_core.specs.Front.{IsClient};
ghost use Rattle.live_core.specs.Text.{client_words};
ghost use Rattle.front_read.specs.Rows.{Takes, TakesThis, row_words};
ghost use Rattle.front_read.specs.Row.{client_row, client_of as client_in, TakesNamed};

use crate::number::{behind_verb, long_first, session_first};
use crate::text::{behind, first_line};
use live_core::front::NamedClient;
use live_core::write::push_client;
use path_tree::name::Name;
use std::alloc::{AllocError, Global};
use word_core::word::Word;
use word_core::words::{bare_of, words_of};

// A client, as its row tells it.
#[derive(Clone, Copy)]
struct ClientRow<'a> {
    session: u32,
    name: &'a [u8],
    keys: u64,
}

// The client that the words of its line tell.
fn client_of<'a>(words: &[Word<'a>]) -> Option<ClientRow<'a>>
    ensures { option_map client_row result ≡ client_in (words_in words.now) }
{
    let words = behind_verb(words, b"client")?;
    let (session, words) = session_first(words)?;
    let (name, words) = bare_of(words)?;
    let (keys, _) = long_first(words)?;
    Some(ClientRow {
        session,
        name,
        keys,
    })
}

// Takes the row of a client.
pub(crate) fn take_client<'a>(
    alloc: Global,
    out: &mut Vec<NamedClient>,
    text: &'a [u8],
) -> Result<Option<&'a [u8]>, AllocError>
    ensures { IfOk result (λ found. Takes IsClient (row_words (codes "client") client_words) text.now out.old.items
        found out.new.items) }
{
    match words_of(alloc, first_line(text))? {
        Some(words) => match client_of(&words) {
            Some(row) => {
                let found = take_named(alloc, out, text, row)?;
                Ok(found)
            }
            None => Ok(None),
        },
        None => Ok(None),
    }
}

// Takes the row of a client that is said to be this one, where it has a name.
fn take_named<'a>(
    alloc: Global,
    out: &mut Vec<NamedClient>,
    text: &'a [u8],
    row: ClientRow,
) -> Result<Option<&'a [u8]>, AllocError>
    ensures { IfOk result (λ found. TakesNamed (client_row row.entry) text.now out.old.items found out.new.items) }
{
    match Name::read(alloc, row.name)? {
        Some(name) => {
            name.as_bytes();
            let found = take_this_client(alloc, out, text, row.session, name, row.keys)?;
            Ok(found)
        }
        None => Ok(None),
    }
}

fn take_this_client<'a>(
    alloc: Global,
    out: &mut Vec<NamedClient>,
    text: &'a [u8],
    session: u32,
    name: Name,
    keys: u64,
) -> Result<Option<&'a [u8]>, AllocError>
    ensures { IfOk result (λ found. TakesThis (row_words (codes "client") client_words)
        (record { session = session; name = name; keys = keys }) text.now out.old.items found out.new.items) }
{
    let mut line = Vec::new(alloc);
    push_client(&mut line, session, name.as_bytes(), keys)?;
    match behind(text, &line) {
        Some(rest) => {
            out.push(NamedClient {
                session,
                name,
                keys,
            })?;
            Ok(Some(rest))
        }
        None => Ok(None),
    }
}
