//! Names of operations, as they are written.

ghost use Rattle.std.specs.Prelude.{◌≡◌, true, option_map};
ghost use Rattle.word_core.specs.Identifier.{is_identifier as is_identifier_test, identifier_of};

use path_tree::name::is_identifier;

// Whether these bytes are an identifier.
fn is_name(bytes: &[u8]) -> bool
    ensures { result ≡ is_identifier_test bytes.now }
{
    is_identifier(bytes)
}

// An identifier as text.
fn text_of(bytes: &[u8]) -> &str
    requires { is_identifier_test bytes.now ≡ true }
    ensures { result.now ≡ bytes.now }
{
    match std::str::from_utf8(bytes) {
        Ok(text) => text,
        Err(_) => unreachable!(),
    }
}

/// These bytes as text, where they are an identifier.
pub fn identifier_of(bytes: &[u8]) -> Option<&str>
    ensures { option_map (λ s. s.now) result ≡ identifier_of bytes.now }
{
    if !is_name(bytes) {
        return None;
    }
    let text = text_of(bytes);
    Some(text)
}
