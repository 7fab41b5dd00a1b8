//! The texts of objects, as their journals know them: `NAME.source` in the folder. They are for who tells in what FILE is
//! another one; nothing else stands on them.

use crate::changed::DeclaredObject;
use crate::folder::bytes_at;
use crate::notes::note;
use cause_core::cause::{Cause, cause_of};
use cause_core::fault::{FileFault, FileTask, push_fault};
use decl_core::hold::Rules;
use decl_core::object::Object;
use decl_read::held_read::{Held, Look, look_at};
use decl_read::read::read_objects;
use keep_log::log::Log;
use live_core::source::source_of;
use mio_core::own::OwnFiles;
use path_tree::lex::lex;
use path_tree::token::{Symbol, Token, TokenKind};
use std::alloc::{AllocError, Global};
use std::fs::{self, OpenFile, OpenOptions};
use std::io::{self, ErrorKind, Write};

// Whether a token begins an object.
fn opens_object(token: &Token) -> bool {
    match &token.kind {
        TokenKind::Symbol(Symbol::Object) => true,
        _ => false,
    }
}

/// The texts of the objects of a source, in order: each from its word `object` up to its last token, and an LF. There is
/// none where the source has no tokens.
pub(crate) fn texts_of(alloc: Global, source: &[u8]) -> Result<Vec<Vec<u8>>, AllocError> {
    let mut all: Vec<Vec<u8>> = Vec::new(alloc);
    let Ok(tokens) = lex(alloc, source) else {
        return Ok(all);
    };
    let mut begin: usize = 0;
    let mut end: usize = 0;
    let mut is_open = false;
    for token in &tokens {
        let is_end = match &token.kind {
            TokenKind::EndMark => true,
            _ => false,
        };
        if is_open && (is_end || opens_object(token)) {
            let mut text = source.get(begin..end).unwrap_or(&[]).to_vec(alloc)?;
            text.push(b'\n')?;
            all.push(text)?;
        }
        if opens_object(token) {
            begin = token.start;
            is_open = true;
        }
        end = token.end;
    }
    Ok(all)
}

/// The first object of a source, with its rules. `None`: there is none.
pub(crate) fn object_in(alloc: Global, text: &[u8]) -> Result<Option<DeclaredObject>, AllocError> {
    match look_at(alloc, text)? {
        Look::Plain => match read_objects(alloc, text) {
            Ok(all) => {
                for object in all.into_values() {
                    return Ok(Some(DeclaredObject {
                        object,
                        rules: Rules {
                            holds: Vec::new(alloc),
                            everies: Vec::new(alloc),
                        },
                    }));
                }
                Ok(None)
            }
            Err(_) => Ok(None),
        },
        Look::Held(held) => {
            let Held {
                mut objects,
                mut rules,
                ..
            } = held;
            if objects.is_empty() || rules.is_empty() {
                return Ok(None);
            }
            Ok(Some(DeclaredObject {
                object: objects.remove(0),
                rules: rules.remove(0),
            }))
        }
        Look::Faulty(_) => Ok(None),
    }
}

// The object that a file of the folder has, where its declaration gives this number.
fn before_in(
    rt: &HostRuntime,
    path: &str,
    source: u64,
) -> Result<Option<DeclaredObject>, AllocError> {
    let Ok(text) = bytes_at(rt, path) else {
        return Ok(None);
    };
    let Some(before) = object_in(rt.alloc(), &text)? else {
        return Ok(None);
    };
    if source_of(&before.object) != source {
        return Ok(None);
    }
    Ok(Some(before))
}

/// The object as the journal knows it that tells this number of its declaration. `None`: the folder has it not.
pub(crate) fn before_of(
    rt: &HostRuntime,
    folder: &str,
    name: &str,
    source: Option<u64>,
) -> Result<Option<DeclaredObject>, AllocError> {
    let Some(source) = source else {
        return Ok(None);
    };
    let path = format!(in rt.alloc(); "{folder}/{name}.source")?;
    if let Some(before) = before_in(rt, path.as_str(), source)? {
        return Ok(Some(before));
    }
    let fresh = format!(in rt.alloc(); "{folder}/{name}.source.new")?;
    before_in(rt, fresh.as_str(), source)
}

// Removes a file, where it is there.
fn remove(rt: &HostRuntime, path: &str) -> io::Result<()> {
    match fs::remove_file(rt, path) {
        Ok(()) => Ok(()),
        Err(error) => {
            if error.kind() == ErrorKind::NotFound {
                return Ok(());
            }
            Err(error)
        }
    }
}

/// Writes a file that is made anew, its owner's alone, and has it go to the disk.
pub(crate) fn write_new(rt: &HostRuntime, path: &str, bytes: &[u8]) -> io::Result<()> {
    remove(rt, path)?;
    let mut file = OpenOptions::new()
        .write(true)
        .create_new(true)
        .open(&OwnFiles::new(rt), path)?;
    file.write_all(bytes)?;
    file.sync_all()
}

// Whether a file has these bytes.
fn has_text(rt: &HostRuntime, path: &str, text: &[u8]) -> bool {
    match bytes_at(rt, path) {
        Ok(found) => found.as_slice() == text,
        Err(_) => false,
    }
}

/// The texts of objects that begin, those of them that the folder has not yet written as `NAME.source.new`.
#[derive(Drop)]
pub struct FreshSources {
    // Of each that was written its two paths.
    paths: Vec<(String, String)>,
}

// Writes one, where the folder has not this text. `None`: it has.
fn write_one(
    rt: &HostRuntime,
    folder: &str,
    name: &str,
    text: &[u8],
) -> io::Result<Option<(String, String)>> {
    let path = format!(in rt.alloc(); "{folder}/{name}.source")?;
    if has_text(rt, path.as_str(), text) {
        return Ok(None);
    }
    let fresh = format!(in rt.alloc(); "{folder}/{name}.source.new")?;
    if let Err(fault) = write_new(rt, fresh.as_str(), text) {
        let _removed = fs::remove_file(rt, fresh.as_str());
        return Err(fault);
    }
    Ok(Some((fresh, path)))
}

// Tells that the text of an object of this name could not be written, and why.
fn note_unwritten<E: Write, L: Write>(
    alloc: Global,
    folder: &str,
    name: &str,
    cause: Cause,
    error: &mut E,
    log: &mut Log<HostRuntime, L>,
) -> Result<(), AllocError> {
    let path = format!(in alloc; "{folder}/{name}.source.new")?;
    let mut line = Vec::new(alloc);
    let fault = FileFault {
        task: FileTask::Write,
        cause,
    };
    push_fault(&mut line, path.as_bytes(), fault)?;
    note(&line, error, log);
    Ok(())
}

// Writes those of these texts that the folder has not yet.
fn write_each<E: Write, L: Write>(
    rt: &HostRuntime,
    folder: &str,
    names: &[String],
    texts: &[Vec<u8>],
    written: &mut FreshSources,
    error: &mut E,
    log: &mut Log<HostRuntime, L>,
) -> Result<(), AllocError> {
    for at in 0..names.len() {
        let Some(text) = texts.get(at) else {
            return Ok(());
        };
        match write_one(rt, folder, names[at].as_str(), text) {
            Ok(Some(paths)) => written.paths.push(paths)?,
            Ok(None) => {}
            Err(fault) => {
                let cause = cause_of(&fault);
                note_unwritten(rt.alloc(), folder, names[at].as_str(), cause, error, log)?;
            }
        }
    }
    Ok(())
}

/// Writes the texts of objects of these names that the folder has not yet. One that cannot be written is told, and nothing
/// else changes. The error is that memory was refused: then none is left.
pub fn write_sources<E: Write, L: Write>(
    rt: &HostRuntime,
    folder: &str,
    names: &[String],
    texts: &[Vec<u8>],
    error: &mut E,
    log: &mut Log<HostRuntime, L>,
) -> Result<FreshSources, AllocError> {
    let mut written = FreshSources {
        paths: Vec::new(rt.alloc()),
    };
    match write_each(rt, folder, names, texts, &mut written, error, log) {
        Ok(()) => Ok(written),
        Err(fault) => {
            written.take_back(rt);
            Err(fault)
        }
    }
}

impl FreshSources {
    /// The journals have begun: what was written takes the place of what stood there.
    pub fn put(&self, rt: &HostRuntime) {
        for written in &self.paths {
            let _ = fs::rename(rt, written.0.as_str(), written.1.as_str());
        }
    }

    /// The journals have not begun: what was written is removed.
    pub fn take_back(&self, rt: &HostRuntime) {
        for written in &self.paths {
            let _removed = fs::remove_file(rt, written.0.as_str());
        }
    }
}
