//! Room in lists that grow for as long as a session lasts.

ghost use Rattle.std.specs.Prelude.{◌≡◌, ◌<◌, ◌≤◌, ◌+◌, IsTrue};
ghost use Rattle.std.specs.Vec.{vec_len, vec_capacity};

// How many items there is room for at first.
const FIRST: usize = 64;

/// Makes room for so many items more, where there is none. It makes it for an eighth of what there is besides, so
/// that little stays empty.
/// Without memory it answers false.
pub fn make_room_for<T>(list: &mut Vec<T>, count: usize) -> bool
    ensures same { list.new.items ≡ list.old.items }
    ensures room { IsTrue result → vec_len list.new + count ≤ vec_capacity list.new }
{
    if count <= list.capacity() - list.len() {
        return true;
    }
    let more = (FIRST + list.len() / 8).saturating_add(count);
    list.reserve_exact(more).is_ok()
}

/// Makes room for one item more, where there is none. It makes it for an eighth of what there is besides, so that
/// little stays empty. Without memory it answers false.
pub fn make_room_in<T>(list: &mut Vec<T>) -> bool
    ensures same { list.new.items ≡ list.old.items }
    ensures room { IsTrue result → vec_len list.new < vec_capacity list.new }
{
    make_room_for(list, 1)
}
