//! The end of a server: each object is closed, its parts are saved and its trace is written.

ghost use Rattle.std.specs.Prelude.{◌≡◌, ◌++◌, ◌+◌, ◌<◌, ◌≤◌, ℕ, [], ◌∷◌, length};
ghost use Rattle.std.specs.Prelude.{◌↔◌, IsTrue, OnErr, OnOk, true, false};
ghost use Rattle.std.specs.FinMap.{insert};
ghost use Rattle.device_core.specs.Papers.{Papers};
ghost use Rattle.device_core.specs.Device.{Assignment};
ghost use Rattle.decl_core.specs.ObjectMap.{object_of};
ghost use Rattle.word_core.specs.Text.{trace_text as text_of};
ghost use Rattle.page_core.specs.Saved.{MaySave, StoreLeaves};
ghost use Rattle.board_core.specs.Sound.{IsSound};
ghost use Rattle.desk_core.specs.Told.{lines_told};
ghost use Rattle.keep_core.specs.Ends.{kept_in, KeepsIn, HasAll, EndsIn, Ended, IsOf, IsEndingIn};
ghost use Rattle.keep_core.specs.Moments.{moment_of};
ghost use Rattle.keep_core.specs.Opening.{values_of};
ghost use Rattle.keep_core.specs.Kept.{fault_by, Notes, SavesIn, StoresText, Traces};
ghost use Rattle.keep_core.specs.Lines.{IsWritten, AreTold, entries_line, entries_lines, refused_line, damaged_line};
ghost use Rattle.keep_core.specs.Lines.{files_text, unsaved_text, unsaved_line, untraced_line};

use crate::marks::Marks;
use crate::open::{push_damaged, push_part};
use crate::opening::{ObjectOpening, began_with};
use crate::trouble::Trouble;
use decl_core::object::Object;
use desk_core::desk::Desk;
use desk_core::held::desk_can_be_told;
use device_core::hand::{Hand, HandFault, Stamp};
use device_core::shelf::Shelf;
use office_core::office::Office;
use office_core::seat::Seat;
use office_core::slip::Slip;
use page_core::part_at::PartAt;
use page_core::pins::Pins;
use page_core::save::{SaveFault, save_part, save_parts};
use path_tree::name::Name;
use std::alloc::{AllocError, Global};
use std::io::Write;
use value_core::reply::{push_count, push_number, push_reply};
use value_core::value::Value;
use value_core::{LinesFault, write_whole};

// The most bytes of a line at the end: two names, the numbers of eight files and words.
const LINE_BYTES: usize = 512;

/// What closes objects: the shelves of their parts and of their traces, a hand on their values, and what was met.
#[derive(Drop)]
pub struct Closing<S: Shelf + Drop, T: Shelf + Drop, H: Hand + Drop> {
    pub(crate) alloc: Global,
    pub(crate) parts: S,
    traces: T,
    pub(crate) hand: H,
    // Room for a line.
    line: Vec<u8>,
    // Room for the name of a part.
    key: Vec<u8>,
    // Room for a mark at each place of a history.
    marks: Marks,
    /// Whether each object so far was saved, and its trace written.
    pub keeps_all: bool,
    /// What was met.
    pub trouble: Trouble,
}

/// An object at the end: its name, its office, what its parts opened with, and the seats and receipts that its sessions
/// left.
#[derive(Drop)]
pub struct ClosingObject {
    pub name: Name,
    pub office: Office,
    pub opening: ObjectOpening,
    pub seats: Vec<Seat>,
    pub receipts: Vec<Slip>,
}

/// What became of an object at the end.
#[derive(Clone, Copy, Debug, PartialEq, Eq)]
pub struct Became {
    /// What its sessions left adds up, and tells of each entry of its history.
    pub closed: bool,
    /// Each of its parts is saved.
    pub saved: bool,
    /// Its trace is written.
    pub traced: bool,
}

// Whether it was closed, saved and traced.
fn is_kept(became: Became) -> bool
    ensures { result ≡ kept_in became }
{
    became.closed && became.saved && became.traced
}

// Writes a line, where it was made.
fn tell<W: Write>(
    writer: &mut W,
    line: &[u8],
    made: Result<(), AllocError>,
) -> Result<(), LinesFault>
    ensures { IsWritten made line.now result (W.contents writer.old) (W.contents writer.new) }
{
    match made {
        Ok(()) => write_whole(writer, line),
        Err(_) => Err(LinesFault::Memory),
    }
}

// `close NAME refused`.
fn tell_refused<W: Write>(line: &mut Vec<u8>, name: &[u8], writer: &mut W) -> Result<(), LinesFault>
    ensures { AreTold (refused_line name.now ∷ []) result (W.contents writer.old) (W.contents writer.new) }
{
    line.clear();
    let made = push_refused(line, name);
    tell(writer, line.as_slice(), made)
}

fn push_refused(line: &mut Vec<u8>, name: &[u8]) -> Result<(), AllocError>
    ensures { OnOk result (line.new.items ≡ line.old.items ++ refused_line name.now) }
{
    line.extend_from_slice(b"close ")?;
    push_reply(line, name, b" refused")
}

// Adds `NAME entries K`.
fn push_entries(line: &mut Vec<u8>, name: &[u8], entries: usize) -> Result<(), AllocError>
    ensures { OnOk result (line.new.items ≡ line.old.items ++ entries_line name.now entries) }
{
    line.extend_from_slice(name)?;
    push_count(line, b" entries ", entries as u64)
}

// Says how many entries the history of an object has, where it was closed, saved and traced, and else nothing.
fn tell_entries<W: Write>(
    line: &mut Vec<u8>,
    name: &[u8],
    became: Became,
    entries: usize,
    writer: &mut W,
) -> Result<(), LinesFault>
    ensures { AreTold (entries_lines (kept_in became) name.now entries) result (W.contents writer.old)
        (W.contents writer.new) }
{
    if !is_kept(became) {
        return Ok(());
    }
    line.clear();
    let made = push_entries(line, name, entries);
    tell(writer, line.as_slice(), made)
}

// `part OBJECT.PART damaged`.
fn tell_damaged<W: Write>(
    line: &mut Vec<u8>,
    object: &Object,
    part: usize,
    writer: &mut W,
) -> Result<(), LinesFault>
    ensures { AreTold (damaged_line object.now part ∷ []) result (W.contents writer.old) (W.contents writer.new) }
{
    line.clear();
    let made = push_damaged(line, object, part);
    tell(writer, line.as_slice(), made)
}

// Says on standard error which files hold the value of a part that is not saved, page by page: `OBJECT.PART
// not saved: N.val ..`.
fn tell_unsaved<E: Write>(
    line: &mut Vec<u8>,
    object: &Object,
    part: usize,
    pages: &[Stamp],
    error: &mut E,
) -> Result<(), LinesFault>
    ensures { AreTold (unsaved_line object.now part pages.now ∷ []) result (E.contents error.old)
        (E.contents error.new) }
{
    line.clear();
    let made = push_unsaved(line, object, part, pages);
    tell(error, line.as_slice(), made)
}

fn push_unsaved(
    line: &mut Vec<u8>,
    object: &Object,
    part: usize,
    pages: &[Stamp],
) -> Result<(), AllocError>
    ensures { OnOk result (line.new.items ≡ line.old.items ++ unsaved_line object.now part pages.now) }
{
    push_part(line, object, part)?;
    push_rest(line, pages)
}

// Adds what follows the name of a part that is not saved.
fn push_rest(line: &mut Vec<u8>, pages: &[Stamp]) -> Result<(), AllocError>
    ensures { OnOk result (line.new.items ≡ line.old.items ++ unsaved_text pages.now) }
{
    line.extend_from_slice(b" not saved:")?;
    push_files(line, pages)?;
    line.extend_from_slice(b"\n")
}

// Adds ` N.val` for each of these files, in order.
fn push_files(line: &mut Vec<u8>, files: &[Stamp]) -> Result<(), AllocError>
    ensures { OnOk result (line.new.items ≡ line.old.items ++ files_text files.now) }
{
    let Some((file, rest)) = files.split_first() else {
        return Ok(());
    };
    push_number(line, b" ", file.number)?;
    line.extend_from_slice(b".val")?;
    push_files(line, rest)
}

// Says on standard error that the trace of an object is not written: `OBJECT.trace not written`.
fn tell_untraced<E: Write>(line: &mut Vec<u8>, name: &[u8], error: &mut E) -> Result<(), LinesFault>
    ensures { AreTold (untraced_line name.now ∷ []) result (E.contents error.old) (E.contents error.new) }
{
    line.clear();
    let made = push_reply(line, name, b".trace not written");
    tell(error, line.as_slice(), made)
}

// The fault of a write to a folder.
fn fault_of_hand(fault: HandFault) -> LinesFault
    ensures { result ≡ fault_by fault }
{
    match fault {
        HandFault::Device => LinesFault::WriteFault,
        HandFault::Memory => LinesFault::Memory,
    }
}

// The first part that is not saved for sure, where saving all ended so: those before it are.
fn first_unsaved(fault: SaveFault) -> usize
    ensures { (k : ℕ) → MaySave fault k → result ≤ k }
{
    match fault {
        SaveFault::Damaged(part) | SaveFault::Device(part) => part,
        SaveFault::Memory => 0,
    }
}

// Notes why a part is not saved, and says so where it is damaged.
fn note_unsaved<W: Write>(
    line: &mut Vec<u8>,
    object: &Object,
    part: usize,
    fault: SaveFault,
    trouble: &mut Trouble,
    writer: &mut W,
)
    ensures { Notes object.now part fault trouble.old trouble.new (W.contents writer.old) (W.contents writer.new) }
{
    match fault {
        SaveFault::Damaged(_) => {
            trouble.refuse();
            let told = tell_damaged(line, object, part, writer);
            trouble.heed(told);
        }
        SaveFault::Device(_) => trouble.note(LinesFault::WriteFault),
        SaveFault::Memory => trouble.note(LinesFault::Memory),
    }
}

// Whether the one and the other is so.
fn both(one: bool, more: bool) -> bool
    ensures all { IsTrue result → IsTrue one × IsTrue more }
    ensures back { IsTrue one → IsTrue more → IsTrue result }
{
    one && more
}

// Writes the trace of an object, in place of the one that is there.
fn store_trace<T: Shelf>(desk: &Desk, opening: &[Value], traces: &mut T) -> Result<(), HandFault>
    ensures stored { OnOk result ((papers : Papers) → T.holds traces.new papers →
        (before : Papers) × T.holds traces.old before
        × (papers ≡ insert before desk.now.object.name (text_of (object_of desk.now.object) opening.now
        (lines_told desk.now)))) }
    ensures left { OnErr result (StoreLeaves (T.holds traces.old) (T.holds traces.new) desk.now.object.name
        (text_of (object_of desk.now.object) opening.now (lines_told desk.now))) }
{
    let Ok(text) = desk.trace_text(opening) else {
        return Err(HandFault::Memory);
    };
    match traces.store(desk.accepted().object().name.as_bytes(), &text) {
        Ok(()) => Ok(()),
        Err(fault) => Err(fault),
    }
}

// The same, and once more where memory was refused.
fn store_again<T: Shelf>(desk: &Desk, opening: &[Value], traces: &mut T) -> Result<(), HandFault>
    ensures stored { OnOk result (StoresText 1 desk.now.object.name (text_of (object_of desk.now.object) opening.now
        (lines_told desk.now)) (T.holds traces.old) (T.holds traces.new)) }
    ensures left { OnErr result (StoresText 0 desk.now.object.name (text_of (object_of desk.now.object) opening.now
        (lines_told desk.now)) (T.holds traces.old) (T.holds traces.new)) }
{
    match store_trace(desk, opening, traces) {
        Ok(()) => Ok(()),
        Err(HandFault::Device) => Err(HandFault::Device),
        Err(HandFault::Memory) => store_trace(desk, opening, traces),
    }
}

// Writes the trace of an object, and notes and says where that fails. It answers whether it is written.
fn keep_trace<T: Shelf, E: Write>(
    desk: &Desk,
    opening: &[Value],
    traces: &mut T,
    line: &mut Vec<u8>,
    trouble: &mut Trouble,
    error: &mut E,
) -> bool
    ensures { Traces desk.now.object.name (text_of (object_of desk.now.object) opening.now (lines_told desk.now))
        (T.holds traces.old) (T.holds traces.new) result trouble.old trouble.new }
{
    match store_again(desk, opening, traces) {
        Ok(()) => true,
        Err(fault) => {
            trouble.note(fault_of_hand(fault));
            let _ = tell_untraced(line, desk.accepted().object().name.as_bytes(), error);
            false
        }
    }
}

// Whether two names are the same.
fn is_same_name(one: &Name, other: &Name) -> bool
    ensures { IsTrue result ↔ (one.now ≡ other.now) }
{
    one.as_bytes() == other.as_bytes()
}

// Whether a desk is of the object of this name, it began with this opening, and each entry of its history has a slip.
fn has_all(
    marks: &mut Marks,
    name: &Name,
    opening: &ObjectOpening,
    desk: &Desk,
    slips: &[Slip],
) -> bool
    ensures all { IsTrue result ↔ HasAll name.now opening.now desk.now slips.now }
    ensures sound { IsSound desk.now }
{
    let history = desk.history();
    if !is_same_name(&desk.accepted().object().name, name) {
        return false;
    }
    let begun = began_with(desk, opening);
    if !begun {
        return false;
    }
    marks.have_slips(history, slips)
}

impl<S: Shelf + Drop, T: Shelf + Drop, H: Hand + Drop> Closing<S, T, H> {
    /// Nothing is closed yet. The error is that memory was refused: for the lines at the end, or for the marks of the
    /// entries that have a slip.
    pub fn new(
        alloc: Global,
        parts: S,
        traces: T,
        hand: H,
    ) -> Result<Closing<S, T, H>, AllocError> {
        Ok(Closing {
            alloc,
            parts,
            traces,
            hand,
            key: Vec::new(alloc),
            line: Vec::with_capacity(alloc, LINE_BYTES)?,
            marks: Marks::new(alloc)?,
            keeps_all: true,
            trouble: Trouble::none(),
        })
    }

    // Saves one part of an object. Where that fails it is noted, and it says which files hold the part's value. It
    // answers whether the part is saved.
    fn save_one<W: Write, E: Write>(
        &mut self,
        object: &Object,
        pins: &Pins,
        place: usize,
        writer: &mut W,
        error: &mut E,
    ) -> bool
        requires pinned { length pins.now ≡ length object.now.parts.items }
        requires within { place < length object.now.parts.items }
        ensures saves { SavesIn (moment_of S.holds T.holds H.agrees self.old (W.contents writer.old))
            (moment_of S.holds T.holds H.agrees self.new (W.contents writer.new)) object.now pins.now place (place + 1) result }
        ensures files { (a : Assignment) → H.agrees self.new.hand a → H.agrees self.old.hand a }
        ensures traces { self.new.traces ≡ self.old.traces }
        ensures kept { self.new.keeps_all ≡ self.old.keeps_all }
    {
        let part = &object.parts[place];
        let lists = pins.as_slice();
        let pin = &lists[place];
        let shelf = &mut self.parts;
        let hand = &mut self.hand;
        let at = PartAt {
            object: &object.name,
            part,
            number: place,
        };
        match save_part(self.alloc, at, pin, shelf, hand, &mut self.key) {
            Ok(()) => true,
            Err(fault) => {
                note_unsaved(
                    &mut self.line,
                    object,
                    place,
                    fault,
                    &mut self.trouble,
                    writer,
                );
                let _ = tell_unsaved(&mut self.line, object, place, pin.stamps(), error);
                false
            }
        }
    }

    // Saves each part from this one on that can be saved by itself. It answers whether all of them are saved.
    fn save_from<W: Write, E: Write>(
        &mut self,
        object: &Object,
        pins: &Pins,
        first: usize,
        writer: &mut W,
        error: &mut E,
    ) -> bool
        requires { length pins.now ≡ length object.now.parts.items }
        ensures saves { SavesIn (moment_of S.holds T.holds H.agrees self.old (W.contents writer.old))
            (moment_of S.holds T.holds H.agrees self.new (W.contents writer.new)) object.now pins.now first
            (length object.now.parts.items) result }
        ensures files { (a : Assignment) → H.agrees self.new.hand a → H.agrees self.old.hand a }
        ensures traces { self.new.traces ≡ self.old.traces }
        ensures kept { self.new.keeps_all ≡ self.old.keeps_all }
    {
        if first >= object.parts.len() {
            return true;
        }
        let one = self.save_one(object, pins, first, writer, error);
        let more = self.save_from(object, pins, first + 1, writer, error);
        both(one, more)
    }

    // Saves the parts of an object. Where that fails each part is tried by itself, so what is wrong with one of them
    // keeps no other one from being saved, and neither does memory that was refused once. It answers whether all are
    // saved.
    fn save_all<W: Write, E: Write>(&mut self, desk: &Desk, writer: &mut W, error: &mut E) -> bool
        ensures saves { SavesIn (moment_of S.holds T.holds H.agrees self.old (W.contents writer.old))
            (moment_of S.holds T.holds H.agrees self.new (W.contents writer.new)) desk.now.object desk.now.pins 0
            (length desk.now.object.parts.items) result }
        ensures files { (a : Assignment) → H.agrees self.new.hand a → H.agrees self.old.hand a }
        ensures traces { self.new.traces ≡ self.old.traces }
        ensures kept { self.new.keeps_all ≡ self.old.keeps_all }
    {
        // The board is sound: each part has a pin.
        desk.history();
        let object = desk.accepted().object();
        let pins = desk.pins();
        match save_parts(self.alloc, object, &pins, &mut self.parts, &mut self.hand) {
            Ok(()) => true,
            Err(fault) => {
                let first = first_unsaved(fault);
                self.save_from(object, &pins, first, writer, error)
            }
        }
    }

    // Saves the parts of an object and writes its trace.
    fn keep<W: Write, E: Write>(
        &mut self,
        desk: &Desk,
        opening: &ObjectOpening,
        closed: bool,
        writer: &mut W,
        error: &mut E,
    ) -> Became
        ensures kept { KeepsIn (moment_of S.holds T.holds H.agrees self.old (W.contents writer.old))
            (moment_of S.holds T.holds H.agrees self.new (W.contents writer.new)) desk.now (values_of opening.now) closed
            result }
        ensures files { (a : Assignment) → H.agrees self.new.hand a → H.agrees self.old.hand a }
    {
        // Called for its contract alone: lines can tell of the board.
        desk_can_be_told(desk);
        let saved = self.save_all(desk, writer, error);
        let traced = keep_trace(
            desk,
            &opening.values,
            &mut self.traces,
            &mut self.line,
            &mut self.trouble,
            error,
        );
        let kept = both(saved, traced);
        self.keeps_all = both(self.keeps_all, kept);
        Became {
            closed,
            saved,
            traced,
        }
    }

    // Saves the parts of an object that is closed, writes its trace, and says how many entries its history has, where
    // all of this was done.
    fn end_closed<W: Write, E: Write>(
        &mut self,
        name: &[u8],
        opening: &ObjectOpening,
        desk: &Desk,
        writer: &mut W,
        error: &mut E,
    )
        ensures ends { EndsIn (moment_of S.holds T.holds H.agrees self.old (W.contents writer.old))
            (moment_of S.holds T.holds H.agrees self.new (W.contents writer.new)) name.now opening.now desk.now true }
        ensures files { (a : Assignment) → H.agrees self.new.hand a → H.agrees self.old.hand a }
    {
        let became = self.keep(desk, opening, true, writer, error);
        let entries = desk.history().len();
        let told = tell_entries(&mut self.line, name, became, entries, writer);
        self.trouble.heed(told);
    }

    // Says that an object is not closed, and saves its parts and writes its trace all the same.
    fn end_refused<W: Write, E: Write>(
        &mut self,
        name: &[u8],
        opening: &ObjectOpening,
        desk: &Desk,
        writer: &mut W,
        error: &mut E,
    )
        ensures ends { EndsIn (moment_of S.holds T.holds H.agrees self.old (W.contents writer.old))
            (moment_of S.holds T.holds H.agrees self.new (W.contents writer.new)) name.now opening.now desk.now false }
        ensures files { (a : Assignment) → H.agrees self.new.hand a → H.agrees self.old.hand a }
    {
        self.trouble.refuse();
        let told = tell_refused(&mut self.line, name, writer);
        self.trouble.heed(told);
        self.keep(desk, opening, false, writer, error);
    }

    /// Closes one object, saves its parts, writes its trace, and says how many entries its history has, where all of
    /// this was done. It is not closed where what its sessions left does not add up, where an entry of its history has
    /// no slip, or where the office is that of an object of another name or began with other pins; this is told as
    /// refused. A fault is noted, and what does not hang on it is still done: an object that is not closed is saved all
    /// the same.
    pub fn close_one<W: Write, E: Write>(
        &mut self,
        ending: ClosingObject,
        writer: &mut W,
        error: &mut E,
    )
        ensures ended { (e : Ended) × IsOf ending.name ending.opening ending.seats.items ending.receipts.items e
            × IsEndingIn (moment_of S.holds T.holds H.agrees self.old (W.contents writer.old))
            (moment_of S.holds T.holds H.agrees self.new (W.contents writer.new)) e }
        ensures files { (a : Assignment) → H.agrees self.new.hand a → H.agrees self.old.hand a }
    {
        let ClosingObject {
            name,
            office,
            opening,
            seats,
            receipts,
        } = ending;
        match office.close_by_slips(seats, &receipts) {
            Ok(closed) => {
                let desk = closed.desk;
                let whole = has_all(&mut self.marks, &name, &opening, &desk, &receipts);
                drop(receipts);
                if whole {
                    self.end_closed(name.as_bytes(), &opening, &desk, writer, error);
                } else {
                    self.end_refused(name.as_bytes(), &opening, &desk, writer, error);
                }
            }
            Err(refused) => {
                let desk = refused.inside.desk();
                self.end_refused(name.as_bytes(), &opening, desk, writer, error);
            }
        }
    }
}
