//! The first line of a script.

ghost use Rattle.std.specs.Prelude.{◌↔◌, IsTrue};
ghost use Rattle.world_core.specs.Writes.{NamesObject};

use decl_core::object::Object;
use word_core::first::object_line;

/// Whether a line names this object.
pub(crate) fn names_object(object: &Object, line: &[u8]) -> bool
    ensures { IsTrue result ↔ NamesObject object.now line.now }
{
    match object_line(line) {
        Some(name) => object.name.is_spelled_by(name),
        None => false,
    }
}
