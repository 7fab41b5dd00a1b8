//! Pages of an array of integers.

ghost use Rattle.std.specs.Prelude.{◌≡◌, ◌↔◌, IsTrue};
ghost use Rattle.apply_core.specs.Pages.{HasFrame, page_of as in_page};

/// Whether at the front of these bytes stands the header of an array of so many integers, in the second format, and
/// they are as many as such an array has. Whatever bytes stand behind the header, they spell an array then.
pub fn has_frame(count: u16, bytes: &[u8]) -> bool
    ensures { IsTrue result ↔ HasFrame count bytes.now }
{
    let [high, low] = count.to_be_bytes();
    match bytes {
        [2, 1, first, second, rest @ ..] => {
            *first == high && *second == low && rest.len() == 4 * count as usize
        }
        _ => false,
    }
}

/// The page of an element. Pages and elements count from 0: a page has 1,024 bytes, the header and each element four.
pub fn page_of(index: u32) -> usize
    ensures { result ≡ in_page index }
{
    ((index as u64 + 1) / 256) as usize
}
