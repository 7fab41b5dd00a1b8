//! The elements of a queue, the oldest first: none is moved when one is added or taken.

ghost use Rattle.std.specs.Prelude.{◌≡◌, ◌++◌, ◌∷◌, [], length, slice_get, IfOk, OnOk, OnErr, drop};
ghost use Rattle.std.specs.Prelude.{◌<◌, ◌≤◌, ◌+◌, ◌-◌, ◌&&◌, nat_lt, if◌then◌else◌, take};
ghost use Rattle.value_core.specs.Limits.{most_elements};
ghost use Rattle.value_core.specs.Datum.{elem_of};
ghost use Rattle.value_core.specs.Queue.{queue_sort, queue_data};
ghost use Rattle.value_core.specs.Undo.{queue_back};
ghost use Rattle.std.specs.VecDeque.{deque_capacity};

use crate::datum::Datum;
use crate::kind::Elem;
use crate::limits::MOST_ELEMENTS;
use crate::row::Row;
use crate::undo::Undo;
use std::alloc::{AllocError, Global};
use std::collections::VecDeque;

/// The elements of a queue. Each text has memory of its own length.
#[derive(Drop)]
pub enum Queue {
    Integers(VecDeque<u32>),
    Texts(VecDeque<Row>),
}

impl Queue {
    /// No elements of this sort. It takes no memory.
    pub(crate) fn new(alloc: Global, sort: Elem) -> Queue
        ensures sort { queue_sort result ≡ sort }
        ensures data { queue_data result ≡ [] }
    {
        match sort {
            Elem::Integer => Queue::Integers(VecDeque::new(alloc)),
            Elem::Text => Queue::Texts(VecDeque::new(alloc)),
        }
    }

    /// No elements of this sort, with room for so many.
    pub fn with_capacity(alloc: Global, sort: Elem, room: usize) -> Result<Queue, AllocError>
        ensures sort { IfOk result (λ queue. queue_sort queue ≡ sort) }
        ensures data { IfOk result (λ queue. queue_data queue ≡ []) }
    {
        match sort {
            Elem::Integer => Ok(Queue::Integers(VecDeque::with_capacity(alloc, room)?)),
            Elem::Text => Ok(Queue::Texts(VecDeque::with_capacity(alloc, room)?)),
        }
    }

    /// Which sort its elements are.
    pub(crate) fn sort(&self) -> Elem
        ensures { result ≡ queue_sort self.now }
    {
        match self {
            Queue::Integers(_) => Elem::Integer,
            Queue::Texts(_) => Elem::Text,
        }
    }

    /// The number of elements.
    pub(crate) fn len(&self) -> usize
        ensures { result ≡ length (queue_data self.now) }
    {
        match self {
            Queue::Integers(all) => all.len(),
            Queue::Texts(all) => all.len(),
        }
    }

    /// The element at a place, counted from 0 at the oldest.
    pub(crate) fn get(&self, place: usize) -> Option<Datum>
        ensures { result ≡ slice_get (queue_data self.now) place }
    {
        match self {
            Queue::Integers(all) => match all.get(place) {
                Some(number) => Some(Datum::Integer(*number)),
                None => None,
            },
            Queue::Texts(all) => match all.get(place) {
                Some(row) => Some(Datum::Text(row.text())),
                None => None,
            },
        }
    }

    /// Adds an element as the newest.
    pub fn push(&mut self, datum: Datum) -> Result<(), AllocError>
        requires { elem_of datum ≡ queue_sort self.old }
        ensures sort { queue_sort self.new ≡ queue_sort self.old }
        ensures ok { OnOk result (queue_data self.new ≡ queue_data self.old ++ datum ∷ []) }
        ensures err { OnErr result (queue_data self.new ≡ queue_data self.old) }
    {
        match self {
            Queue::Integers(all) => match datum {
                Datum::Integer(number) => Ok(all.push_back(number)?),
                Datum::Text(_) => unreachable!(),
            },
            Queue::Texts(all) => match datum {
                Datum::Text(text) => {
                    let row = Row::new(*all.allocator(), &text)?;
                    Ok(all.push_back(row)?)
                }
                Datum::Integer(_) => unreachable!(),
            },
        }
    }

    /// Removes the oldest element, of one or more, and says what takes that back. The error is that memory was
    /// refused, and then nothing changes.
    pub(crate) fn take(&mut self) -> Result<Undo, AllocError>
        requires some { 0 < length (queue_data self.old) }
        requires few { length (queue_data self.old) ≤ most_elements }
        ensures sort { queue_sort self.new ≡ queue_sort self.old }
        ensures ok { OnOk result (queue_data self.new ≡ drop 1 (queue_data self.old)) }
        ensures back { IfOk result (λ undo. queue_back undo (queue_sort self.new) (queue_data self.new) ≡ queue_data self.old) }
        ensures err { OnErr result (queue_data self.new ≡ queue_data self.old) }
    {
        match self {
            Queue::Integers(all) => {
                let room = VecDeque::with_capacity(*all.allocator(), all.len())?;
                match all.pop_front() {
                    Some(number) => Ok(Undo::OldestInteger(number, room)),
                    None => unreachable!(),
                }
            }
            Queue::Texts(all) => {
                let room = VecDeque::with_capacity(*all.allocator(), all.len())?;
                match all.pop_front() {
                    Some(row) => Ok(Undo::OldestText(row, room)),
                    None => unreachable!(),
                }
            }
        }
    }

    /// Takes a change of the elements back; where it is none of these, nothing changes. It takes no memory.
    pub(crate) fn take_back(&mut self, undo: Undo)
        ensures sort { queue_sort self.new ≡ queue_sort self.old }
        ensures data { queue_data self.new ≡ queue_back undo (queue_sort self.old) (queue_data self.old) }
    {
        match undo {
            Undo::Newest => self.drop_newest(),
            Undo::OldestInteger(number, room) => match self {
                Queue::Integers(all) => put_in_front(all, number, room),
                Queue::Texts(_) => {}
            },
            Undo::OldestText(row, room) => match self {
                Queue::Texts(all) => put_in_front(all, row, room),
                Queue::Integers(_) => {}
            },
            _ => {}
        }
    }

    // Drops the newest element, if there is one.
    fn drop_newest(&mut self)
        ensures sort { queue_sort self.new ≡ queue_sort self.old }
        ensures data { queue_data self.new ≡ take (length (queue_data self.old) - 1) (queue_data self.old) }
    {
        match self {
            Queue::Integers(all) => {
                let _number = all.pop_back();
            }
            Queue::Texts(all) => {
                let _row = all.pop_back();
            }
        }
    }

    /// A copy of the elements, in memory of its own.
    pub(crate) fn copy(&self, alloc: Global) -> Result<Queue, AllocError>
        ensures sort { IfOk result (λ copy. queue_sort copy ≡ queue_sort self.now) }
        ensures data { IfOk result (λ copy. queue_data copy ≡ queue_data self.now) }
    {
        match self {
            Queue::Integers(all) => Ok(Queue::Integers(copied(alloc, all)?)),
            Queue::Texts(all) => Ok(Queue::Texts(all.clone()?)),
        }
    }

    /// The elements, in order.
    pub(crate) fn list(&self, alloc: Global) -> Result<Vec<Datum>, AllocError>
        ensures { IfOk result (λ list. list.items ≡ queue_data self.now) }
    {
        let mut list = Vec::with_capacity(alloc, self.len())?;
        for place in 0..self.len() {
            if let Some(datum) = self.get(place) {
                list.push(datum)?;
            }
        }
        Ok(list)
    }
}

// A copy of these integers, made in one growth.
fn copied(alloc: Global, all: &VecDeque<u32>) -> Result<VecDeque<u32>, AllocError>
    ensures { IfOk result (λ copy. copy.items ≡ all.now.items) }
{
    let (older, newer) = all.as_slices();
    let mut copy = Vec::with_capacity(alloc, all.len())?;
    copy.extend_from_slice(older)?;
    copy.extend_from_slice(newer)?;
    Ok(VecDeque::from(copy))
}

// Puts an element in front of these, in this room, where it has room for them all.
fn put_in_front<X: Drop>(all: &mut VecDeque<X>, first: X, room: VecDeque<X>)
    ensures { all.new.items ≡ (if nat_lt (length all.old.items) (deque_capacity room) && nat_lt (length all.old.items) most_elements
        then first ∷ all.old.items else all.old.items) }
{
    if all.len() < room.capacity() && all.len() < MOST_ELEMENTS as usize {
        let mut more = room;
        more.clear();
        more.push_back_reserved(first);
        move_behind(all, &mut more);
        *all = more;
    }
}

// Moves all elements behind others, where there is room for them.
fn move_behind<X: Drop>(from: &mut VecDeque<X>, to: &mut VecDeque<X>)
    requires { length to.old.items + length from.old.items ≤ deque_capacity to.old }
    ensures { to.new.items ≡ to.old.items ++ from.old.items }
{
    match to.append(from) {
        Ok(()) => {}
        Err(_) => unreachable!(),
    }
}
