//! What the parts of an object opened with, and whether a desk began with it.

ghost use Rattle.std.specs.Prelude.{◌≡◌, ◌↔◌, IsTrue, map};
ghost use Rattle.value_core.specs.Contents.{kind_of};
ghost use Rattle.keep_core.specs.Opening.{BeganWith};

use decl_core::object::Part;
use desk_core::desk::Desk;
use device_core::hand::Stamp;
use page_core::page_list::PageList;
use page_core::pins::Pins;
use value_core::value::Value;

/// What the parts of an object opened with: their values, and the pins of the pages in which these were sealed.
#[derive(Drop)]
pub struct ObjectOpening {
    pub values: Vec<Value>,
    pub pins: Pins,
}

// Whether two stamps are the same.
fn is_same_stamp(a: &Stamp, b: &Stamp) -> bool
    ensures { IsTrue result ↔ (a.now ≡ b.now) }
{
    a == b
}

// Whether stamps are the same, one by one.
fn are_same_stamps(a: &[Stamp], b: &[Stamp]) -> bool
    ensures { IsTrue result ↔ (a.now ≡ b.now) }
{
    match a {
        [] => b.is_empty(),
        [stamp, rest @ ..] => match b {
            [] => false,
            [other, others @ ..] => is_same_stamp(stamp, other) && are_same_stamps(rest, others),
        },
    }
}

// Whether two page lists are the same.
fn is_same_list(a: &PageList, b: &PageList) -> bool
    ensures { IsTrue result ↔ (a.now ≡ b.now) }
{
    are_same_stamps(a.stamps(), b.stamps())
}

// Whether page lists are the same, one by one.
fn are_same_lists(a: &[PageList], b: &[PageList]) -> bool
    ensures { IsTrue result ↔ (a.now ≡ b.now) }
{
    match a {
        [] => b.is_empty(),
        [list, rest @ ..] => match b {
            [] => false,
            [other, others @ ..] => is_same_list(list, other) && are_same_lists(rest, others),
        },
    }
}

// Whether a part has the kind of this value.
fn is_of_kind(part: &Part, value: &Value) -> bool
    ensures { IsTrue result ↔ (part.now.kind ≡ kind_of value.now) }
{
    part.kind == value.kind()
}

// Whether parts have the kinds of these values, one by one.
fn are_of_kinds(parts: &[Part], values: &[Value]) -> bool
    ensures { IsTrue result ↔ (map (λ part. part.kind) parts.now ≡ map kind_of values.now) }
{
    match parts {
        [] => values.is_empty(),
        [part, rest @ ..] => match values {
            [] => false,
            [value, others @ ..] => is_of_kind(part, value) && are_of_kinds(rest, others),
        },
    }
}

/// Whether a desk began with these pins, and its object's parts have the kinds of these values. The numbers of files
/// are drawn once, so no other desk with parts began with these pins.
pub fn began_with(desk: &Desk, opening: &ObjectOpening) -> bool
    ensures { IsTrue result ↔ BeganWith desk.now opening.now }
{
    let pins = desk.opening_pins();
    if !are_same_lists(pins.as_slice(), opening.pins.as_slice()) {
        return false;
    }
    are_of_kinds(&desk.accepted().object().parts, &opening.values)
}
