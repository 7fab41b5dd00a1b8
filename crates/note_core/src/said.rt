//! Sentences, and the words that stand in them.

use std::alloc::AllocError;

/// What is said of a place: a sentence, and what would help. In both `%`, `$`, `@` and `#` stand for words.
#[derive(Clone, Copy)]
pub struct Message {
    pub sentence: &'static str,
    pub help: &'static str,
}

/// The words of a sentence.
#[derive(Clone, Copy)]
pub struct MessageWords<'a> {
    /// What `%` stands for.
    pub first: &'a [u8],
    /// What `$` stands for.
    pub second: &'a [u8],
    /// What `@` stands for.
    pub third: &'a [u8],
    /// What `#` stands for.
    pub fourth: &'a [u8],
}

pub fn say(sentence: &'static str, help: &'static str) -> Message {
    Message { sentence, help }
}

// Adds a byte of a sentence, or the word that it stands for.
fn push_piece(out: &mut Vec<u8>, byte: u8, words: MessageWords<'_>) -> Result<(), AllocError> {
    match byte {
        b'%' => out.extend_from_slice(words.first),
        b'$' => out.extend_from_slice(words.second),
        b'@' => out.extend_from_slice(words.third),
        b'#' => out.extend_from_slice(words.fourth),
        byte => {
            out.push(byte)?;
            Ok(())
        }
    }
}

/// Adds a sentence with its words.
pub fn push_sentence(
    out: &mut Vec<u8>,
    sentence: &str,
    words: MessageWords<'_>,
) -> Result<(), AllocError> {
    for byte in sentence.as_bytes() {
        push_piece(out, *byte, words)?;
    }
    Ok(())
}
