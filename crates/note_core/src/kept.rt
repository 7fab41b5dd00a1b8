//! A reader that keeps what it gives.

use cause_core::cause::{Cause, cause_of};
use std::alloc::Global;
use std::io::{self, Read};

/// A reader that hands on what another one gives, and keeps a copy of its first bytes as long as there is memory for
/// that, and why a read failed last.
#[derive(Drop)]
pub struct CopyingReader<R> {
    inner: R,
    most: usize,
    copy: Option<Vec<u8>>,
    fault: Option<Cause>,
}

// A copy with these bytes behind it, as far as it has room for them, unless memory was refused.
fn with_more(copy: Option<Vec<u8>>, most: usize, bytes: &[u8]) -> Option<Vec<u8>> {
    let mut copy = copy?;
    let room = most.saturating_sub(copy.len());
    let fit = if bytes.len() > room {
        &bytes[..room]
    } else {
        bytes
    };
    match copy.extend_from_slice(fit) {
        Ok(()) => Some(copy),
        Err(_) => None,
    }
}

impl<R: Read + Drop> CopyingReader<R> {
    /// A reader over another one, of which nothing has been read. It keeps so many bytes.
    pub fn new(alloc: Global, inner: R, most: usize) -> CopyingReader<R> {
        CopyingReader {
            inner,
            most,
            copy: Some(Vec::new(alloc)),
            fault: None,
        }
    }

    /// The first bytes that were read, unless memory for them was refused.
    pub fn text(&self) -> Option<&[u8]> {
        match &self.copy {
            Some(copy) => Some(copy),
            None => None,
        }
    }

    /// Why a read failed last.
    pub fn fault(&self) -> Option<Cause> {
        self.fault
    }
}

impl<R: Read> Read for CopyingReader<R> {
    fn read(&mut self, buf: &mut [u8]) -> io::Result<usize> {
        match self.inner.read(buf) {
            Ok(count) => {
                let copy = self.copy.take();
                self.copy = with_more(copy, self.most, &buf[..count]);
                Ok(count)
            }
            Err(error) => {
                self.fault = Some(cause_of(&error));
                Err(error)
            }
        }
    }
}
