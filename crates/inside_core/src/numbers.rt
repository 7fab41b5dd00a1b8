//! The numbers of a server. Times are in seconds since the beginning of 1970.

/// The numbers of a server.
#[derive(Clone, Copy, Debug, PartialEq, Eq)]
pub struct Server {
    /// When this was looked at, and when the server began.
    pub looked: u64,
    pub start: u64,
    /// So often it is looked at, in seconds.
    pub every: u64,
    /// Connections now, since the start, and at most at once.
    pub connections: u64,
    pub total: u64,
    pub limit: u64,
    /// Bytes of memory that the system gave it; 0 where it does not say.
    pub memory: u64,
}

/// A journal: the name of its object, which is an identifier, and its numbers.
#[derive(Drop)]
pub struct Stored {
    pub name: Vec<u8>,
    /// The number of the epoch.
    pub epoch: u64,
    /// Bytes of lines.
    pub bytes: u64,
    /// How often it was stored since the start, and when for the last time: 0 where it was not.
    pub syncs: u64,
    pub synced: u64,
    /// How often no epoch could begin since the start.
    pub failed: u64,
}

/// How many things took at most so long.
#[derive(Drop)]
pub struct Bucket {
    /// So long, in seconds, as it is told, and in nanoseconds.
    pub seconds: Vec<u8>,
    pub nanos: u64,
    pub count: u64,
}

/// How long things took.
#[derive(Drop)]
pub struct Durations {
    /// The bounds, each of which is above the one before.
    pub buckets: Vec<Bucket>,
    /// How many they were, and how many nanoseconds they took in all.
    pub count: u64,
    pub nanos: u64,
}

/// How many calls of an operation ended since the start, by how.
#[derive(Clone, Copy, Debug, PartialEq, Eq)]
pub struct EndCounts {
    pub done: u64,
    pub refused: u64,
    pub failed: u64,
}

/// An operation: its name, which is an identifier, how its calls ended, how many run and wait now, and for how many seconds
/// the call waits that waits longest; 0 where none waits.
#[derive(Drop)]
pub struct OperationTally {
    pub name: Vec<u8>,
    pub ends: EndCounts,
    pub running: u64,
    pub waiting: u64,
    pub waited: u64,
}

/// An object: its name, which is an identifier, its numbers, and its operations.
#[derive(Drop)]
pub struct SeenObject {
    pub name: Vec<u8>,
    /// Sessions that have a number, of clients that are there.
    pub sessions: u64,
    /// So many numbers of calls are taken of the epoch, of this many.
    pub given: u64,
    pub limit: u64,
    /// How many calls were cancelled since the start.
    pub cancelled: u64,
    /// How many calls are held now, of sessions that are there and of those that are gone.
    pub held: u64,
    pub operations: Vec<OperationTally>,
}
