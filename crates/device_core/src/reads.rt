//! What a hand read last.

ghost use Rattle.std.specs.Prelude.{◌≡◌, ◌≢◌, ◌⊎◌, ℕ, List, IsTrue, Some, length};
ghost use Rattle.device_core.specs.declared.hand.Stamp.{Stamp as IsStamp};
ghost use Rattle.device_core.specs.Reads.{IsAmong};

use crate::hand::Stamp;
use crate::sealed::MOST_BYTES;
use std::alloc::{AllocError, Global};

// How many reads are kept.
const MOST_READS: usize = 8;

// The bytes of a read, and where they stand: the stamp of the file, and the place in it. Or none.
#[derive(Drop)]
pub(crate) struct KeptRead {
    of: Option<(Stamp, usize)>,
    bytes: Vec<u8>,
}

impl KeptRead {
    // Whether these are so many bytes of this place.
    fn is_of(&self, stamp: &Stamp, at: usize, len: usize) -> bool
        ensures of { IsTrue result → self.now.of ≡ Some (stamp.now, at) }
        ensures len { IsTrue result → len ≡ length self.now.bytes.items }
    {
        match &self.of {
            Some((kept, place)) => kept == stamp && *place == at && self.bytes.len() == len,
            None => false,
        }
    }

    // These bytes are kept here in place of others, or nothing.
    fn put(&mut self, stamp: &Stamp, at: usize, bytes: &[u8])
        ensures of { (s : IsStamp) (k : ℕ) → self.new.of ≡ Some (s, k) →
            (s ≡ stamp.now) × (k ≡ at) × (self.new.bytes.items ≡ bytes.now) }
    {
        self.of = None;
        self.bytes.clear();
        if self.bytes.extend_from_slice(bytes).is_ok() {
            self.of = Some((*stamp, at));
        }
    }

    // Nothing is kept here any more, if it was of this file.
    fn forget(&mut self, number: u64)
        ensures same { (s : IsStamp) (k : ℕ) → self.new.of ≡ Some (s, k) → self.old.of ≡ Some (s, k) }
        ensures gone { (s : IsStamp) (k : ℕ) → self.new.of ≡ Some (s, k) → s.number ≢ number }
        ensures bytes { self.new.bytes ≡ self.old.bytes }
    {
        let is_of = match &self.of {
            Some((stamp, _)) => stamp.number == number,
            None => false,
        };
        if is_of {
            self.of = None;
        }
    }
}

/// The bytes of the last 8 reads of at most 4,096 bytes: a part may have as many files. A file does not
/// change once it is sealed.
#[derive(Drop)]
pub(crate) struct Reads {
    reads: Vec<KeptRead>,
    // The place of the one that was kept longest.
    oldest: usize,
}

impl Reads {
    /// Room for the reads. None is kept yet.
    pub(crate) fn new(alloc: Global) -> Result<Reads, AllocError> {
        let mut reads = Vec::with_capacity(alloc, MOST_READS)?;
        for _ in 0..MOST_READS {
            let bytes = Vec::with_capacity(alloc, MOST_BYTES)?;
            if reads.push(KeptRead { of: None, bytes }).is_err() {
                return Err(AllocError);
            }
        }
        Ok(Reads { reads, oldest: 0 })
    }

    /// Gives the bytes of a read that is kept: of the same stamp, place and length. Where none is it answers false.
    pub(crate) fn give(&self, stamp: &Stamp, at: usize, into: &mut [u8]) -> bool
        ensures { IsTrue result → IsAmong self.now.reads.items stamp.now at into.new }
    {
        for kept in self.reads.iter() {
            if kept.is_of(stamp, at, into.len()) {
                into.copy_from_slice(&kept.bytes);
                return true;
            }
        }
        false
    }

    /// Keeps the bytes of a read, if they are few, in place of the one that was kept longest.
    pub(crate) fn keep(&mut self, stamp: &Stamp, at: usize, bytes: &[u8])
        ensures { (s : IsStamp) (k : ℕ) (b : List ℕ) → IsAmong self.new.reads.items s k b
            → IsAmong self.old.reads.items s k b ⊎ ((s ≡ stamp.now) × (k ≡ at) × (b ≡ bytes.now)) }
    {
        if bytes.len() > MOST_BYTES {
            return;
        }
        let place = self.oldest;
        let Some(kept) = self.reads.get_mut(place) else {
            return;
        };
        kept.put(stamp, at, bytes);
        self.oldest = (place + 1) % MOST_READS;
    }

    /// The reads of a file that is no more are kept no more.
    pub(crate) fn forget(&mut self, number: u64)
        ensures { (s : IsStamp) (k : ℕ) (b : List ℕ) → IsAmong self.new.reads.items s k b →
            IsAmong self.old.reads.items s k b × (s.number ≢ number) }
    {
        for kept in self.reads.iter_mut() {
            kept.forget(number);
        }
    }
}
