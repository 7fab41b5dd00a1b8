//! The file of a journal: lines of text, and then bytes that are 0. What a crash leaves of it are whole lines: all that
//! were stored, and maybe some more of those that were added since, in order.

ghost use Rattle.std.specs.Prelude.{◌≡◌, ◌⊎◌, ◌<◌, ◌≤◌, ◌^◌, ◌+◌, ◌++◌, [], List, ℕ, length, take, IfOk, OnOk, OnErr};
ghost use Rattle.std.specs.Prelude.{IfErr, IsErrOf, Some, true, false};
ghost use lib.ListN.{replicate};
ghost use Rattle.keep_loop.specs.Device.{IsOnDisk, LeavesOnly, Rises};
ghost use Rattle.keep_loop.specs.Journal.{recovered, AreLines};
ghost use Rattle.keep_loop.specs.Order.{Fills};
ghost use Rattle.keep_loop.specs.Taken.{ArePlain, IsFront, Tells, TellsBetween, in_file};
ghost use Rattle.keep_loop.specs.declared.device.DeviceError.TheVariants.{Full, Failed};

use crate::check_lines::{FRONT_WORD, STORED_WORD, push_check};
use crate::crc::{CRC_START, CrcTable};
use crate::device::{Device, DeviceError};
use crate::head::with_form;
use std::alloc::{AllocError, Global};

/// Behind the room for lines a file has room for so many bytes of check lines: 65,536 of 36 bytes.
pub const CHECK_ROOM: usize = 65_536 * 36;

/// A file to which lines are added.
///
/// It is in order (`IsInOrder`) once it was begun, and after each call that answers `Ok`. `append`, `sync` and `change`
/// want it so; after an `Err` other than `Full` it is not, and nothing but `into_device` is left: no sync is tried
/// again behind one that failed.
#[derive(Drop)]
pub struct Journal<D: Device> {
    device: D,
    // the bytes of the file that are on the disk
    stored: usize,
    // the bytes of all lines in the file
    size: usize,
    // how many bytes of lines may still be added
    room: usize,
    // how many bytes of check lines
    checks: usize,
    // the number of the lines since the last check line, before the last step
    crc: u32,
    // what is written next
    buffer: Vec<u8>,
    table: CrcTable,
}

// Puts lines into a buffer, and behind them the line that checks them, where there is room for it. It answers the number
// of the lines since the last check line, and how much room for check lines is left.
fn fill(
    table: &CrcTable,
    buffer: &mut Vec<u8>,
    lines: &[u8],
    stored: u64,
    crc: u32,
    checks: usize,
) -> Result<(u32, usize), AllocError>
    ensures { IfOk result (λ next. Fills lines.now stored crc checks buffer.new.items next.0 next.1) }
{
    let crc = table.more(crc, lines);
    buffer.clear();
    buffer.extend_from_slice(lines)?;
    push_check(buffer, STORED_WORD, stored, crc)?;
    let check = buffer.len() - lines.len();
    if check > checks {
        buffer.truncate(lines.len());
        return Ok((crc, checks));
    }
    Ok((CRC_START, checks - check))
}

impl<D: Device> Journal<D> {
    ghost use Rattle.keep_loop.specs.Order.{IsInOrder, Holds};

    /// The device, as the last call left it.
    pub fn into_device(self) -> D
        ensures { result ≡ self.device }
    {
        let Journal {
            device,
            stored: _,
            size: _,
            room: _,
            checks: _,
            crc: _,
            buffer: _,
            table: _,
        } = self;
        device
    }

    /// The bytes of all lines in the file, with those by which it checks itself.
    pub fn size(&self) -> usize
        ensures { result ≡ self.now.size }
    {
        self.size
    }

    /// Adds whole lines, none of whose bytes is 0, and none of which is a check line; and in the same write the line that
    /// checks them, where there is room for it. They are not on the disk before the next sync. `Err`: `Full` where
    /// fewer bytes are free than they have, and nothing changes; else what the device said, `Failed` or `Memory`, and
    /// the file is to be opened again.
    pub fn append(&mut self, lines: &[u8]) -> Result<(), DeviceError>
        requires in_order { IsInOrder D.seen D.may_leave self.old }
        requires lines { ArePlain lines.now }

        ensures in_order { OnOk result (IsInOrder D.seen D.may_leave self.new) }
        ensures added { OnOk result ((stored text : List ℕ) → Holds D.seen self.old stored text
            → Holds D.seen self.new stored (text ++ lines.now)) }

        // A crash at any moment of the call leaves all that was stored, and maybe some lines more.
        ensures any_moment { (stored text : List ℕ) → Holds D.seen self.old stored text
            → LeavesOnly D.moment D.left_since self.old.device self.new.device
            (λ c. TellsBetween stored (text ++ lines.now) c) }

        ensures full { IsErrOf result Full → (self.new ≡ self.old) × (self.old.room < length lines.now) }
        ensures failed { IsErrOf result Failed → Rises (D.faults self.old.device) (D.faults self.new.device) }
    {
        if lines.len() > self.room {
            return Err(DeviceError::Full);
        }
        let (crc, checks) = fill(
            &self.table,
            &mut self.buffer,
            lines,
            self.stored as u64,
            self.crc,
            self.checks,
        )?;
        self.device.write_at(self.size, &self.buffer)?;
        self.size += self.buffer.len();
        self.room -= lines.len();
        self.checks = checks;
        self.crc = crc;
        Ok(())
    }

    /// Stores all lines: from then on each crash leaves a file that has them. `Err`: what the device said, `Failed` or
    /// `Memory`, and the file is to be opened again.
    pub fn sync(&mut self) -> Result<(), DeviceError>
        requires { IsInOrder D.seen D.may_leave self.old }

        ensures in_order { OnOk result (IsInOrder D.seen D.may_leave self.new) }
        ensures stored { OnOk result ((stored text : List ℕ) → Holds D.seen self.old stored text
            → Holds D.seen self.new text text) }

        ensures any_moment { (stored text : List ℕ) → Holds D.seen self.old stored text
            → LeavesOnly D.moment D.left_since self.old.device self.new.device
            (λ c. TellsBetween stored text c) }

        ensures full { IsErrOf result Full → ⊥ }
        ensures failed { IsErrOf result Failed → Rises (D.faults self.old.device) (D.faults self.new.device) }
    {
        self.device.sync()?;
        self.stored = self.size;
        Ok(())
    }
}

/// How many bytes the whole lines have that stand before the first byte of a file that is 0.
pub fn recovered_len(file: &[u8]) -> usize
    ensures length { result ≤ length file.now }
    ensures lines { take result file.now ≡ recovered file.now }
{
    let mut size = 0;
    for at in 0..file.len() {
        let byte = file[at];
        if byte == 0 {
            return size;
        }
        if byte == b'\n' {
            size = at + 1;
        }
    }
    size
}

// A front as it stands in a file: line 1 tells the form, and the last line checks it.
fn front_of(alloc: Global, table: &CrcTable, front: &[u8]) -> Result<Vec<u8>, AllocError>
    requires { IsFront front.now }
    ensures { IfOk result (λ file. file.items ≡ in_file front.now) }
{
    let mut file = with_form(alloc, front)?;
    let size = file.len() as u64;
    let crc = table.more(CRC_START, &file);
    push_check(&mut file, FRONT_WORD, size, crc)?;
    Ok(file)
}

// A file with this front, and so many bytes behind it that are 0, with those for check lines; and how many bytes the front
// has in it.
fn file_of(
    alloc: Global,
    table: &CrcTable,
    front: &[u8],
    room: usize,
) -> Result<(Vec<u8>, usize), AllocError>
    requires front { IsFront front.now }
    requires small { room < 2 ^ 62 }
    ensures { IfOk result (λ made. (made.0.items ≡ in_file front.now ++ replicate (room + 2359296) 0)
        × (made.1 ≡ length (in_file front.now))) }
{
    let mut file = front_of(alloc, table, front)?;
    let size = file.len();
    file.resize(size + room + CHECK_ROOM, 0)?;
    Ok((file, size))
}

impl<D: Device> Journal<D> {
    ghost use Rattle.keep_loop.specs.Order.{IsInOrder, Holds};

    /// Begins a journal with this front, and room for so many bytes behind it: together fewer than 2^62. A crash at any
    /// moment leaves what it might have left before, or the front. `Err`: `Memory`, or `Failed` where the device failed or
    /// could not begin; the device is handed back, and its file is the old one or the new one.
    pub fn begin(
        alloc: Global,
        device: D,
        front: &[u8],
        room: usize,
    ) -> Result<Journal<D>, (DeviceError, D)>
        requires lines { IsFront front.now }
        requires small { length front.now + room < 2 ^ 62 }

        ensures in_order { IfOk result (λ journal. IsInOrder D.seen D.may_leave journal) }
        ensures holds { IfOk result (λ journal. (file : List ℕ) → D.seen device ≡ Some file
            → Holds D.seen journal front.now front.now) }
        ensures any_moment { IfOk result (λ journal. LeavesOnly D.moment D.left_since device journal.device
            (λ c. D.may_leave device c ⊎ Tells front.now c)) }
        ensures any_moment_err { IfErr result (λ e. LeavesOnly D.moment D.left_since device e.1
            (λ c. D.may_leave device c ⊎ Tells front.now c)) }
    {
        let mut device = device;
        let Ok(table) = CrcTable::new(alloc) else {
            return Err((DeviceError::Memory, device));
        };
        let Ok((file, size)) = file_of(alloc, &table, front, room) else {
            return Err((DeviceError::Memory, device));
        };
        match device.replace(&file) {
            Ok(true) => Ok(Journal {
                device,
                stored: size,
                size,
                room,
                checks: CHECK_ROOM,
                crc: CRC_START,
                buffer: Vec::new(alloc),
                table,
            }),
            Ok(false) => Err((DeviceError::Failed, device)),
            Err(error) => Err((error, device)),
        }
    }

    /// Begins the file anew with this front, in place of all lines, and room for so many bytes behind it: together
    /// fewer than 2^62. `false`: memory or the disk had no room for it, and the journal is as it was. A crash at any
    /// moment leaves lines of before, all that were stored among them, or the front; where it answers `false`, lines of
    /// before. `Err`: `Memory`, or `Failed` of the device; the file is to be opened again.
    pub fn change(&mut self, alloc: Global, front: &[u8], room: usize) -> Result<bool, DeviceError>
        requires in_order { IsInOrder D.seen D.may_leave self.old }
        requires lines { IsFront front.now }
        requires small { length front.now + room < 2 ^ 62 }

        ensures in_order { OnOk result (IsInOrder D.seen D.may_leave self.new) }
        ensures holds { IfOk result (λ went. went ≡ true → ((stored text : List ℕ) → Holds D.seen self.old stored text
            → Holds D.seen self.new front.now front.now)) }
        ensures kept { IfOk result (λ went. went ≡ false → ((stored text : List ℕ) → Holds D.seen self.old stored text
            → Holds D.seen self.new stored text)) }
        ensures any_moment { (stored text : List ℕ) → Holds D.seen self.old stored text
            → LeavesOnly D.moment D.left_since self.old.device self.new.device
            (λ c. TellsBetween stored text c ⊎ Tells front.now c) }
        ensures any_moment_kept { IfOk result (λ went. went ≡ false → ((stored text : List ℕ)
            → Holds D.seen self.old stored text → LeavesOnly D.moment D.left_since self.old.device self.new.device
            (λ c. TellsBetween stored text c))) }
        ensures failed { IsErrOf result Failed → Rises (D.faults self.old.device) (D.faults self.new.device) }
    {
        let Ok((file, size)) = file_of(alloc, &self.table, front, room) else {
            return Ok(false);
        };
        match self.device.replace(&file) {
            Ok(true) => {
                self.stored = size;
                self.size = size;
                self.room = room;
                self.checks = CHECK_ROOM;
                self.crc = CRC_START;
                Ok(true)
            }
            Ok(false) => Ok(false),
            Err(error) => Err(error),
        }
    }
}

/// What is recovered of any file are lines.
pub fn recovered_are_lines()
    ensures { (file : List ℕ) → AreLines (recovered file) }
{}

/// No lines are lines, and lines behind lines are.
pub fn lines_are_joined()
    ensures none { AreLines [] }
    ensures both { (first second : List ℕ) → AreLines first → AreLines second → AreLines (first ++ second) }
{}

impl<D: Device> Journal<D> {
    /// The device, to be looked at.
    pub fn device(&self) -> &D
        ensures { result.now ≡ self.now.device }
    {
        &self.device
    }
}
