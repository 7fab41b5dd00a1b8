//! Operations of an object, each once.

use path_tree::node::OpId;

/// The most operations of an object.
pub(crate) const MOST_OPERATIONS: usize = 32;

/// Operations of an object, each once, in the order in which they came.
#[derive(Clone, Copy)]
pub struct OpSet {
    row: [OpId; MOST_OPERATIONS],
    count: usize,
}

/// No operation.
pub(crate) fn no_ops() -> OpSet {
    OpSet {
        row: [0; MOST_OPERATIONS],
        count: 0,
    }
}

impl OpSet {
    pub(crate) fn all(&self) -> &[OpId] {
        if self.count < MOST_OPERATIONS {
            &self.row[..self.count]
        } else {
            &self.row
        }
    }

    pub(crate) fn has(&self, op: OpId) -> bool {
        self.all().contains(&op)
    }

    /// With one more behind them, if it is none of them.
    pub(crate) fn with(self, op: OpId) -> OpSet {
        if self.has(op) || self.count >= MOST_OPERATIONS {
            return self;
        }
        let mut row = self.row;
        row[self.count] = op;
        OpSet {
            row,
            count: self.count + 1,
        }
    }

    /// With those of a row behind them that are none of them.
    pub(crate) fn with_all(self, ops: &[OpId]) -> OpSet {
        let mut all = self;
        for op in ops {
            all = all.with(*op);
        }
        all
    }
}
