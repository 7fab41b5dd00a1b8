//! CRC-32C (Castagnoli): the remainder by which a changed byte of a line is found.

ghost use Rattle.std.specs.Prelude.{◌≡◌, ◌<◌, bit_xor, IfOk};
ghost use Rattle.keep_loop.specs.Crc.{crc_step, crc_row, crc_rows, crc_more};

use std::alloc::{AllocError, Global};

/// The number of no bytes, before the last step.
pub const CRC_START: u32 = 0xffff_ffff;

const POLYNOMIAL: u32 = 0x82f6_3b78;

// One step of a remainder.
#[tactic(auto, unfolding(crate::specs::Crc::crc_step))]
fn step(crc: u32) -> u32
    ensures { result ≡ crc_step crc }
{
    if crc % 2 == 1 {
        return POLYNOMIAL ^ (crc / 2);
    }
    crc / 2
}

// The row of a byte.
#[tactic(auto, unfolding(crate::specs::Crc::crc_row))]
fn row(byte: u32) -> u32
    ensures { result ≡ crc_row byte }
{
    let four = step(step(step(step(byte))));
    step(step(step(step(four))))
}

/// What eight steps make of each byte.
#[derive(Drop)]
pub struct CrcTable {
    rows: Vec<u32>,
    ghost are: { rows.items ≡ crc_rows 256 0 },
}

impl CrcTable {
    /// The table. The error is that memory was refused.
    #[tactic(auto, using(crate::proofs::Rows::rows_more))]
    pub fn new(alloc: Global) -> Result<CrcTable, AllocError> {
        let mut rows = Vec::with_capacity(alloc, 256)?;
        for byte in 0..256 {
            rows.push(row(byte))?;
        }
        Ok(CrcTable { rows })
    }

    // The row of a byte.
    fn row(&self, byte: u32) -> u32
        requires { byte < 256 }
        ensures { result ≡ crc_row byte }
    {
        self.rows[byte as usize]
    }

    /// The number of these bytes behind others, which have this one; both before the last step.
    #[tactic(auto, using(crate::proofs::Rows::crc_on, crate::proofs::Rows::crc_all))]
    pub fn more(&self, crc: u32, bytes: &[u8]) -> u32
        ensures { result ≡ crc_more crc bytes.now }
    {
        let mut crc = crc;
        for byte in bytes {
            crc = self.row((crc ^ u32::from(*byte)) % 256) ^ (crc / 256);
        }
        crc
    }
}

/// The CRC-32C whose number before the last step is this one.
pub fn crc_end(crc: u32) -> u32
    ensures { result ≡ bit_xor crc 4294967295 }
{
    crc ^ CRC_START
}
