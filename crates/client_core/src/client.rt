//! What is known of a connection.

ghost use Rattle.std.specs.Prelude.{◌≡◌, ◌≤◌, ◌↔◌, ◌++◌, ◌∷◌, [], ℕ, List, length, drop, true, false, Some, None};
ghost use Rattle.std.specs.Prelude.{MatchOption, OnOk, OnErr};
ghost use Rattle.value_core.specs.Runs.{NoLineFeed};
ghost use Rattle.client_core.specs.Held.{rest_in, waits_in, IsFirstLine, is_whole_before};
ghost use Rattle.client_core.specs.Held.{IsHeld, IsPassed, IsSame, IsSetTo};
ghost use Rattle.client_core.specs.People.{person_of, newcomer, stranger};
ghost use Rattle.client_core.specs.Places.{has_in};

use path_tree::name::Name;
use std::alloc::{AllocError, Global};

// Where so many bytes of held lines are done they are let go: who always has a line that is held takes no more.
const MOST_DONE: usize = 65_536;

/// What a connection has opened.
#[derive(Clone, Copy, Debug, PartialEq, Eq)]
pub struct OpenObject {
    /// The place of the object.
    pub object: usize,
    /// The session, from 1; 0 where it has none yet.
    pub session: u16,
    /// Whether its client has a name.
    pub is_named: bool,
    /// Whether a call of it waits.
    pub waits: bool,
    /// How many calls it made that have no name to be remembered by.
    pub calls: u64,
    /// The number that was told of its last call; 0 where it made none.
    pub told: u64,
}

/// A place of a connection.
#[derive(Drop)]
pub struct ClientPlace {
    // the connection that has it, or had it last
    pub(crate) who: u64,
    pub(crate) is_here: bool,
    pub(crate) opened: Option<OpenObject>,
    // lines that came behind a call that waits, each with its LF
    held: Vec<u8>,
    // so many bytes of them are done
    done: usize,
    // whether the LF of the last of them is ours: it may have been cut off
    is_cut: bool,
    // whether it stands among those whose lines may be done
    pub(crate) is_ready: bool,
    // whether its lines are not done since too much is owed to it
    pub(crate) is_stalled: bool,
    // the place behind it among those whose lines may be done
    pub(crate) next: Option<usize>,
    // the name by which it opened an object
    pub(crate) name: Option<Name>,
    // the second in which it came, and that in which its last call was taken, or in which it came
    pub(crate) since: u64,
    pub(crate) called: u64,
}

// Whether a line had its LF, behind which these stand.
fn is_whole(is_cut: bool, behind: &[u8]) -> bool
    ensures { result ≡ is_whole_before is_cut behind.now }
{
    if !is_cut {
        return true;
    }
    !behind.is_empty()
}

// Adds a line with its LF, all or nothing of it.
fn append_line(held: &mut Vec<u8>, line: &[u8]) -> Result<(), AllocError>
    ensures ok { OnOk result (held.new.items ≡ held.old.items ++ (line.now ++ 10 ∷ [])) }
    ensures err { OnErr result (held.new.items ≡ held.old.items) }
{
    held.reserve(line.len().saturating_add(1))?;
    held.extend_from_slice(line)?;
    match held.push(b'\n') {
        Ok(()) => Ok(()),
        Err(_) => {
            held.truncate(held.len() - line.len());
            Err(AllocError)
        }
    }
}

// Cuts bytes at the first LF.
fn split_line(bytes: &[u8]) -> Option<(&[u8], &[u8])>
    ensures { MatchOption result (NoLineFeed bytes.now) (λ parts. IsFirstLine bytes.now parts.0.now parts.1.now) }
{
    let at = bytes.iter().position(|b| *b == b'\n')?;
    Some((&bytes[..at], &bytes[at + 1..]))
}

// The first bytes, so many, are let go.
fn cut(bytes: &mut Vec<u8>, n: usize)
    requires { n ≤ length bytes.old.items }
    ensures { bytes.new.items ≡ drop n bytes.old.items }
{
    bytes.drain(..n);
}

impl ClientPlace {
    /// A place that nobody has.
    pub(crate) fn nobody(alloc: Global) -> ClientPlace
        ensures away { result.is_here ≡ false }
        ensures opened { result.opened ≡ None }
        ensures held { result.held.items ≡ [] }
        ensures person { person_of result ≡ stranger }
    {
        ClientPlace {
            who: 0,
            is_here: false,
            opened: None,
            held: Vec::new(alloc),
            done: 0,
            is_cut: false,
            is_ready: false,
            is_stalled: false,
            next: None,
            name: None,
            since: 0,
            called: 0,
        }
    }

    /// A connection comes in this second.
    pub(crate) fn come(&mut self, alloc: Global, who: u64, second: u64)
        ensures who { self.new.who ≡ who }
        ensures here { self.new.is_here ≡ true }
        ensures opened { self.new.opened ≡ None }
        ensures held { self.new.held.items ≡ [] }
        ensures person { person_of self.new ≡ newcomer second }
    {
        self.who = who;
        self.is_here = true;
        self.opened = None;
        self.name = None;
        self.since = second;
        self.called = second;
        self.let_go(alloc);
    }

    /// Nothing more is heard of it.
    pub(crate) fn go(&mut self, alloc: Global)
        ensures away { self.new.is_here ≡ false }
        ensures opened { self.new.opened ≡ None }
        ensures held { self.new.held.items ≡ [] }
        ensures person { person_of self.new ≡ stranger }
    {
        self.is_here = false;
        self.opened = None;
        self.name = None;
        self.since = 0;
        self.called = 0;
        self.let_go(alloc);
    }

    // Lets all held lines go.
    fn let_go(&mut self, alloc: Global)
        ensures who { self.new.who ≡ self.old.who }
        ensures here { self.new.is_here ≡ self.old.is_here }
        ensures opened { self.new.opened ≡ self.old.opened }
        ensures held { self.new.held.items ≡ [] }
        ensures person { person_of self.new ≡ person_of self.old }
    {
        self.held = Vec::new(alloc);
        self.done = 0;
        self.is_cut = false;
        self.is_stalled = false;
    }

    /// Whether the connection of this number has it.
    pub(crate) fn is(&self, who: u64) -> bool
        ensures { result ≡ has_in who (Some self.now) }
    {
        if !self.is_here {
            return false;
        }
        self.who == who
    }

    /// Whether a call of it waits.
    pub(crate) fn waits(&self) -> bool
        ensures { result ≡ waits_in (Some self.now) }
    {
        match self.opened {
            Some(opened) => opened.waits,
            None => false,
        }
    }

    /// A call of it waits, or waits no more.
    pub(crate) fn set_waits(&mut self, waits: bool)
        ensures { IsSetTo waits (Some self.old) (Some self.new) }
    {
        if let Some(opened) = &mut self.opened {
            opened.waits = waits;
        }
    }

    /// Whether lines are held that are not done.
    pub(crate) fn holds(&self) -> bool
        ensures { result ≡ false ↔ (rest_in (Some self.now) ≡ []) }
    {
        !self.rest().is_empty()
    }

    // The held lines that are not done.
    fn rest(&self) -> &[u8]
        ensures { result.now ≡ rest_in (Some self.now) }
    {
        if self.done >= self.held.len() {
            return &[];
        }
        &self.held[self.done..]
    }

    /// How many bytes of held lines are not done.
    pub(crate) fn held_bytes(&self) -> usize
        ensures { result ≡ length (rest_in (Some self.now)) }
    {
        self.rest().len()
    }

    // Lets held lines go that are done, where these are all of them or many.
    fn settle(&mut self)
        ensures who { self.new.who ≡ self.old.who }
        ensures here { self.new.is_here ≡ self.old.is_here }
        ensures opened { self.new.opened ≡ self.old.opened }
        ensures rest { rest_in (Some self.new) ≡ rest_in (Some self.old) }
        ensures cut { self.new.is_cut ≡ self.old.is_cut }
        ensures person { person_of self.new ≡ person_of self.old }
        ensures within { self.new.done ≤ length self.new.held.items }
    {
        if self.done >= self.held.len() {
            self.held.clear();
            self.done = 0;
            return;
        }
        if self.done >= MOST_DONE {
            cut(&mut self.held, self.done);
            self.done = 0;
        }
    }

    /// Holds a line. `is_whole`: it had an LF. The error is that memory was refused: then it is not held.
    pub(crate) fn hold(&mut self, line: &[u8], is_whole: bool) -> Result<(), AllocError>
        ensures ok { OnOk result (IsHeld line.now is_whole (Some self.old) (Some self.new)) }
        ensures err { OnErr result (IsSame (Some self.old) (Some self.new)) }
    {
        self.settle();
        append_line(&mut self.held, line)?;
        self.is_cut = !is_whole;
        Ok(())
    }

    /// The next held line that is not done, and whether it had an LF.
    pub(crate) fn line(&self) -> Option<(&[u8], bool)>
        ensures { MatchOption result (NoLineFeed (rest_in (Some self.now))) (λ found. (behind : List ℕ)
            × IsFirstLine (rest_in (Some self.now)) found.0.now behind
            × (found.1 ≡ is_whole_before self.now.is_cut behind)) }
    {
        let (line, behind) = split_line(self.rest())?;
        Some((line, is_whole(self.is_cut, behind)))
    }

    /// The first bytes of its held lines, so many, are held no more.
    pub(crate) fn pass(&mut self, alloc: Global, count: usize)
        ensures { IsPassed count (Some self.old) (Some self.new) }
    {
        if self.held_bytes() <= count {
            self.held = Vec::new(alloc);
            self.done = 0;
            return;
        }
        self.done += count;
    }
}
