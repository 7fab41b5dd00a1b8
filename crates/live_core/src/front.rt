//! What an epoch of a kept object begins with.

use crate::past::PastRun;
use apply_core::short::Short;
use apply_core::slim::Slims;
use path_tree::name::Name;
use path_tree::node::OpId;
use value_core::value::Value;

/// What an epoch of an object begins with.
#[derive(Drop)]
pub struct Front {
    /// Which epoch it is, from 1.
    pub epoch: u64,
    /// The number that the declaration of the object gives: `source::source_of`.
    pub source: u64,
    /// The values of the parts, in order of declaration.
    pub parts: Vec<Value>,
    /// A past that leaves what the paths have counted, the oldest first; at most 131,072 events.
    /// `past::events_of` gives these.
    pub past: Vec<PastRun>,
    /// What is added to the number of a call of this epoch where the number is told to a client.
    pub base: u64,
    /// The calls that wait, by their numbers from 1; at most one of a session.
    pub carried: Vec<CarriedCall>,
    /// The clients that have a name; no two of one session or of one name.
    pub clients: Vec<NamedClient>,
    /// The calls that are remembered, those of one session behind each other and in the order of their keys.
    pub kept: Vec<KeptCall>,
}

/// A call that waits.
#[derive(Drop)]
pub struct CarriedCall {
    /// Its number in this epoch, from 1.
    pub number: u32,
    /// The number that was told to its client.
    pub told: u64,
    /// Its session, 1 to 65,535.
    pub session: u32,
    /// Its operation, by the place in the object, from 0.
    pub operation: OpId,
    /// Its arguments, in order, which fit the operation.
    pub arguments: Slims,
}

/// A client that has a name.
#[derive(Drop)]
pub struct NamedClient {
    /// Its session, 1 to 65,535.
    pub session: u32,
    /// Its name.
    pub name: Name,
    /// How many keys it has used: its next key is one more.
    pub keys: u64,
}

/// How a remembered call ended.
#[derive(Drop)]
pub enum Answer {
    /// It replied so.
    Replied(Short),
    /// It was cancelled while it waited.
    Cancelled,
}

/// A call of a client with a name, which is remembered.
#[derive(Drop)]
pub struct KeptCall {
    /// The session of its client, 1 to 65,535.
    pub session: u32,
    /// Its key, from 1.
    pub key: u64,
    /// The number that was told to its client.
    pub told: u64,
    /// How it ended.
    pub answer: Answer,
    /// Its operation, by the place in the object, from 0.
    pub operation: OpId,
    /// Its arguments, in order, which fit the operation.
    pub arguments: Slims,
}
