//! The reading side of a session. One thread has it at a time.

ghost use Rattle.std.specs.Prelude.{◌≡◌, ◌↔◌, [], IsTrue, None, Some, IfOk, IfErr, false};
ghost use Rattle.session_text.specs.Table.{Takes, TakesLast};
ghost use Rattle.session_text.specs.Hearing.{Hearing};
ghost use Rattle.session_text.specs.Ears.{IsHeardOf, IsQuit, end_by, end_met, ended_by, Hears, ReadsOnce, opened_at};

use crate::fault::HearFault;
use crate::line::LineRefusal;
use crate::reader::{LineReader, NextLine};
use crate::session::{Action, Session};
use std::alloc::{AllocError, Global};
use std::io::Read;
use std::marker::Model;

/// What is heard next.
#[derive(Drop)]
pub enum Heard {
    /// A line asks for this.
    Action(Action),
    /// More has to be read first.
    Nothing,
    /// A line has more than 4,096 bytes. What is heard next is the end.
    LineTooLong,
    /// Nothing more is heard: the input ended, or this fault was met.
    End(Option<HearFault>),
}

/// The lines of a session, and what they said so far of it.
#[derive(Drop)]
pub struct Ear<I: Read + Drop> {
    lines: LineReader<I>,
    session: Session,
    // The object that is opened, and the session there.
    opened: Option<(usize, u32)>,
    // Whether `quit` was heard. What comes behind it is let go.
    quits: bool,
    // What ended the hearing, once something did.
    end: Option<Option<HearFault>>,
}

impl<I: Read + Drop> Model for Ear<I> {
    ghost use Rattle.session_text.specs.Hearing.{Hearing};

    ghost Value = { Hearing };

    ghost view = { λ e. record {
      lines = e.lines;
      is_open = e.session.is_open;
      opened = e.opened;
      quits = e.quits;
      end = e.end;
    } };
}

// What is done for what was fed, or the end where memory was refused.
fn done(fed: Result<Action, AllocError>) -> Heard
    ensures done { IfOk fed (λ action. result ≡ Heard.Action action) }
    ensures refused { IfErr fed (λ e. result ≡ Heard.End (Some HearFault.Memory)) }
{
    match fed {
        Ok(action) => Heard::Action(action),
        Err(_) => Heard::End(Some(HearFault::Memory)),
    }
}

// What is heard where this came next.
fn heard_of(alloc: Global, session: &Session, next: Option<NextLine>) -> Heard
    ensures { IsHeardOf session.now.is_open next result }
{
    match next {
        None => Heard::Nothing,
        Some(NextLine::Line(line)) => done(session.feed(alloc, line.as_bytes())),
        Some(NextLine::Rest(line)) => done(session.feed_last(alloc, line.as_bytes())),
        Some(NextLine::NoText) => Heard::Action(Action::Answer(LineRefusal::BadLine)),
        Some(NextLine::End) => Heard::End(None),
        Some(NextLine::LineTooLong) => Heard::LineTooLong,
        Some(NextLine::Memory) => Heard::End(Some(HearFault::Memory)),
    }
}

// Whether the session is to end, behind its calls.
fn is_quit(heard: &Heard) -> bool
    ensures { IsTrue result ↔ IsQuit heard.now }
{
    match heard {
        Heard::Action(Action::Quit) => true,
        _ => false,
    }
}

// How the hearing has ended once this was heard, if it has.
fn end_of(heard: &Heard) -> Option<Option<HearFault>>
    ensures { result ≡ end_by heard.now }
{
    match heard {
        Heard::Action(_) => None,
        Heard::Nothing => None,
        Heard::LineTooLong => Some(Some(HearFault::LineTooLong)),
        Heard::End(fault) => Some(*fault),
    }
}

// The end that a read brought, or that there was.
fn met(end: Option<Option<HearFault>>, found: Option<HearFault>) -> Option<Option<HearFault>>
    ensures { result ≡ end_met end found }
{
    match found {
        Some(fault) => Some(Some(fault)),
        None => end,
    }
}

impl<I: Read + Drop> Ear<I> {
    /// Nothing is heard yet.
    pub fn new(alloc: Global, reader: I) -> Ear<I>
        ensures { result ≡ record {
          lines = record {
            bytes = [];
            ended = false;
            over = false;
            remaining = I.remaining reader;
          };
          is_open = false;
          opened = None;
          quits = false;
          end = None;
        } }
    {
        Ear {
            lines: LineReader::new(alloc, reader),
            session: Session::new(),
            opened: None,
            quits: false,
            end: None,
        }
    }

    /// The object that is opened, by its place, and the session there.
    pub fn opened(&self) -> Option<(usize, u32)>
        ensures { result ≡ self.now.opened }
    {
        self.opened
    }

    /// An object was opened.
    pub fn set_opened(&mut self, at: usize, session: u32)
        ensures { self.new ≡ opened_at (at, session) self.old }
    {
        self.opened = Some((at, session));
        self.session.opened(true);
    }

    /// Nothing more is heard.
    pub fn end(&mut self, fault: Option<HearFault>)
        ensures { self.new ≡ ended_by fault self.old }
    {
        self.end = Some(fault);
    }

    /// What is heard next in the bytes that were read.
    pub fn hear(&mut self, alloc: Global) -> Heard
        ensures { Hears self.old result self.new }
    {
        if let Some(fault) = self.end {
            return Heard::End(fault);
        }
        if self.quits {
            if self.lines.has_ended() {
                self.end = Some(None);
                return Heard::End(None);
            }
            return Heard::Nothing;
        }
        let next = self.lines.ready();
        let heard = heard_of(alloc, &self.session, next);
        self.quits = is_quit(&heard);
        self.end = end_of(&heard);
        heard
    }

    /// Reads once. It may bring nothing.
    pub fn read(&mut self)
        ensures { ReadsOnce self.old self.new }
    {
        let found = self.lines.read();
        self.end = met(self.end, found);
        if self.quits {
            self.lines.skip();
        }
    }
}
