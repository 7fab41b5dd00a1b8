//! The numbers of the calls of each session, in order: a call is found by its session and key without a search.

ghost use Rattle.std.specs.Prelude.{◌≡◌, ℕ, List, [], ◌∷◌, ◌++◌, ◌-◌, ◌<◌, ◌≤◌, length, replicate, slice_get};
ghost use Rattle.std.specs.Prelude.{slice_set, Some, map, vec_capacity, ◌+◌, IfOk, OnOk, OnErr};
ghost use Rattle.board_core.specs.Index.{number_in};

use std::alloc::{AllocError, Global};
use std::marker::Model;

/// Sessions have the numbers from 1 to this one.
const MOST_SESSIONS: usize = 1024;

/// For each session the numbers of its calls, in order.
#[derive(Drop)]
pub struct Index {
    rows: Vec<Vec<u32>>,
}

impl Model for Index {
    ghost use Rattle.std.specs.Prelude.{ℕ, List, map, ◌≡◌, length};

    ghost Value = { List (List ℕ) };

    ghost view = { λ k. map (λ row. row.items) k.rows.items };

    ghost invariant = { λ k. length k.rows.items ≡ 1024 };
}

// Adds so many rows, for which there is room.
fn add_rows(alloc: Global, rows: &mut Vec<Vec<u32>>, count: usize)
    requires { length rows.old.items + count ≤ vec_capacity rows.old }
    ensures { map (λ row. row.items) rows.new.items ≡ map (λ row. row.items) rows.old.items ++ replicate count [] }
{
    if count == 0 {
        return;
    }
    rows.push_reserved(Vec::new(alloc));
    add_rows(alloc, rows, count - 1);
}

// One number more.
fn add(row: &mut Vec<u32>, number: u32) -> Result<(), AllocError>
    ensures ok { OnOk result (row.new.items ≡ row.old.items ++ number ∷ []) }
    ensures err { OnErr result (row.new.items ≡ row.old.items) }
{
    row.reserve(1)?;
    row.push_reserved(number);
    Ok(())
}

// The number at this place, from 1.
fn number_at(row: &[u32], key: u32) -> Option<u32>
    ensures { result ≡ number_in row.now key }
{
    if key == 0 {
        return None;
    }
    let number = row.get(key as usize - 1)?;
    Some(*number)
}

impl Index {
    /// The index of no calls. The error is that memory was refused.
    pub fn new(alloc: Global) -> Result<Index, AllocError>
        ensures { IfOk result (λ k. k ≡ replicate 1024 []) }
    {
        let mut rows = Vec::with_capacity(alloc, MOST_SESSIONS)?;
        add_rows(alloc, &mut rows, MOST_SESSIONS);
        Ok(Index { rows })
    }

    /// The next call of this session has this number. The error is that memory was refused, and changes nothing.
    pub fn add(&mut self, session: u32, number: u32) -> Result<(), AllocError>
        requires { (0 < session) × (session ≤ 1024) }
        ensures ok { OnOk result ((row : List ℕ) → slice_get self.old (session - 1) ≡ Some row →
            self.new ≡ slice_set self.old (session - 1) (row ++ number ∷ [])) }
        ensures err { OnErr result (self.new ≡ self.old) }
    {
        add(&mut self.rows[session as usize - 1], number)?;
        Ok(())
    }

    /// How many calls the session made.
    pub fn count(&self, session: u32) -> usize
        requires { (0 < session) × (session ≤ 1024) }
        ensures { (row : List ℕ) → slice_get self.now (session - 1) ≡ Some row → result ≡ length row }
    {
        self.rows[session as usize - 1].len()
    }

    /// The number of the session's call of this key, or `None` where it has none.
    pub fn number(&self, session: u32, key: u32) -> Option<u32>
        requires { (0 < session) × (session ≤ 1024) }
        ensures { (row : List ℕ) → slice_get self.now (session - 1) ≡ Some row → result ≡ number_in row key }
    {
        number_at(&self.rows[session as usize - 1], key)
    }
}
