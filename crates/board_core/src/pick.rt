//! What a receipt frees, picked where it stands.

ghost use Rattle.std.specs.Prelude.{◌≡◌, ◌↔◌, ◌<◌, ◌≤◌, ◌⊎◌, [], ◌∷◌, IsTrue, length, take, drop, List};
ghost use Rattle.device_core.specs.declared.hand.Stamp.{Stamp as AStamp};
ghost use Rattle.board_core.specs.Free.{HasFile, IsIn, Picks};

use device_core::hand::Stamp;
use page_core::page_list::PageList;
use page_core::pins::Pins;

// Whether a stamp is of the file of this number.
fn is_file(number: u64, stamp: &Stamp) -> bool
    ensures { IsTrue result ↔ (stamp.now.number ≡ number) }
{
    stamp.number == number
}

// Whether one of these stamps is of the file of this number.
fn has_file(number: u64, stamps: &[Stamp]) -> bool
    ensures { IsTrue result ↔ HasFile number stamps.now }
{
    match stamps.split_first() {
        None => false,
        Some((stamp, rest)) => is_file(number, stamp) || has_file(number, rest),
    }
}

// Whether a page of this list is of the file of this number.
fn has_page(number: u64, list: &PageList) -> bool
    ensures { IsTrue result ↔ HasFile number list.now }
{
    has_file(number, list.stamps())
}

// Whether the file of this number is a page of one of these lists.
fn is_in_lists(number: u64, lists: &[PageList]) -> bool
    ensures { IsTrue result ↔ IsIn number lists.now }
{
    match lists.split_first() {
        None => false,
        Some((list, rest)) => has_page(number, list) || is_in_lists(number, rest),
    }
}

// Whether the file of this number is a page of one of these lists, or of one of these stamps.
fn is_there(number: u64, lists: &[PageList], stamps: &[Stamp]) -> bool
    ensures { IsTrue result ↔ (IsIn number lists.now ⊎ HasFile number stamps.now) }
{
    is_in_lists(number, lists) || has_file(number, stamps)
}

// Whether the stamp at this place is published, or stands before it already.
fn goes(free: &[Stamp], at: usize, lists: &[PageList]) -> bool
    requires { at < length free.now }
    ensures { (stamp : AStamp) (rest : List AStamp) → drop at free.now ≡ stamp ∷ rest →
        (IsTrue result ↔ (IsIn stamp.number lists.now ⊎ HasFile stamp.number (take at free.now))) }
{
    let number = free[at].number;
    is_there(number, lists, &free[..at])
}

// From this place on, takes out the stamps that are published, and those that stand before already.
fn pick_from(free: &mut Vec<Stamp>, at: usize, lists: &[PageList])
    requires { at ≤ length free.old.items }
    ensures { Picks (λ number. IsIn number lists.now) (take at free.old.items) (drop at free.old.items) free.new.items }
{
    if at == free.len() {
        return;
    }
    if goes(free, at, lists) {
        free.remove(at);
        pick_from(free, at, lists);
        return;
    }
    pick_from(free, at + 1, lists);
}

/// Takes out the stamps whose files are pages of these pins, and of each file all stamps but the first. Where
/// these are the published pins of a sound board, nobody needs a file of a stamp that stays
/// (`laws::published_are_picked`). It takes no memory.
pub fn pick(free: &mut Vec<Stamp>, pins: &Pins)
    ensures { Picks (λ number. IsIn number pins.now) [] free.old.items free.new.items }
{
    pick_from(free, 0, pins.as_slice());
}
