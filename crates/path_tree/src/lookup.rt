//! Names that are looked up.

ghost use Rattle.std.specs.Prelude.{◌≡◌, ◌≤◌, ◌<◌, length, IfSome};
ghost use Rattle.path_tree.specs.Known.{place_of, value_of, constants_of};

use crate::name::Name;
use crate::node::OpId;

/// A constant and its value.
#[derive(Debug, Drop)]
pub struct Constant {
    /// The constant's name.
    pub name: Name,
    /// Its value, which a path can use where it is within 1 to 65535.
    pub value: u32,
}

/// The number of the operation of this name.
pub(crate) fn operation_of(names: &[Name], text: &[u8]) -> Option<OpId>
    requires { length names.now ≤ 65535 }
    ensures value { result ≡ place_of names.now text.now }
    ensures within { IfSome result (λ k. k < length names.now) }
{
    match names {
        [] => None,
        [name, rest @ ..] => {
            if name.as_bytes() == text {
                Some(0)
            } else {
                let place = operation_of(rest, text)?;
                Some(place + 1)
            }
        }
    }
}

/// The value of the constant of this name.
pub(crate) fn constant_of(constants: &[Constant], text: &[u8]) -> Option<u32>
    ensures { result ≡ value_of (constants_of constants.now) text.now }
{
    match constants {
        [] => None,
        [constant, rest @ ..] => {
            if constant.name.as_bytes() == text {
                Some(constant.value)
            } else {
                constant_of(rest, text)
            }
        }
    }
}
