//! What a value of `--past` says: `OBJECT:OPERATION:K`.

ghost use Rattle.std.specs.Prelude.{◌≡◌, IfSome, None};
ghost use Rattle.command_line.specs.Forms.{IsNumber, number_of};
ghost use Rattle.command_line.specs.Past.{SaysPast};
ghost use Rattle.command_line.specs.declared.past.Past.{Past as APast};

use crate::help;

/// That an operation of an object was done so often before its parts were made.
#[derive(Clone, Copy, Debug)]
pub struct Past<'a> {
    /// The name of the object.
    pub object: &'a str,
    /// The name of the operation.
    pub operation: &'a str,
    /// How often, 1 to 30000.
    pub times: u32,
}

/// What a value of `--past` should be.
pub const MEANS: &str = help::PAST_IS;

const MOST_TIMES: u32 = 30000;

// How often, if a word is a number that may say it.
fn times_in(word: &str) -> Option<u32>
    ensures some { IfSome result (λ n. IsNumber 1 30000 word.now × (n ≡ number_of word.now)) }
    ensures none { result ≡ None → IsNumber 1 30000 word.now → ⊥ }
{
    match word.parse::<u32>() {
        Ok(times) if times > 0 && times <= MOST_TIMES => Some(times),
        _ => None,
    }
}

/// What this word says, if it is a value of `--past`.
pub fn past_in<'a>(word: &'a str) -> Option<Past<'a>>
    ensures some { IfSome result (λ p. SaysPast word.now p) }
    ensures none { result ≡ None → (p : APast) → SaysPast word.now p → ⊥ }
{
    let Some((object, rest)) = word.split_once(':') else {
        return None;
    };
    let Some((operation, number)) = rest.split_once(':') else {
        return None;
    };
    match times_in(number) {
        Some(times) => Some(Past {
            object,
            operation,
            times,
        }),
        None => None,
    }
}
