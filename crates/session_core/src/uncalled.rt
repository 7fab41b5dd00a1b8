//! Public calls that no program makes: they are there for laws and tests, off the path of a call.

use crate::order::Named;

fn is_shared<T: Sync>(_shared: &T) {}

/// Such offices may be shared by threads.
pub fn offices_are_shared(offices: &Vec<Named>) {
    is_shared(offices)
}
