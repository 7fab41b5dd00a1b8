//! What hands and shelves do with their folders.

use crate::hand_calls::HandCall::{
    Append, Create, Discard, Failures, NoAppend, NoCreate, NoRead, NoRetire, Number, Read, Retire,
    Seal, Stamped,
};
use crate::hand_calls::{A, B, C, D, E, HandCall};
use crate::places::FolderStep::{Ahead, AheadEnds, All, At, Denied, Hand, Other, Shelf, Twin};
use crate::places::{FolderStep, SharedFolder};
use crate::scratch::Deed::{Has, Lacks, MakeFolder, Mode, Remove, RemoveFolder, Write};
use crate::scratch::Scratch;
use crate::shelf_calls::ShelfCall;
use crate::shelf_calls::ShelfCall::{Load, NoLoad, NoStore, Nothing, Store};
use std::os::unix::fs::FileExt;
use std::process::Abort;
use std::rt::Files;
use std::{io, process};

// A file that is there already, of a number that is drawn, is left as it is. The number is not drawn again.
const THERE: &[FolderStep] = &[
    At("41.val", Write(b"mine")),
    Hand(&[Create(A), Append(A, b"forty"), Seal(A, 5), Number(A, 40)]),
    At("40.val", Has(b"forty")),
    Hand(&[NoCreate, Failures(1)]),
    At("41.val", Has(b"mine")),
    Hand(&[
        Create(B),
        Append(B, b"forty-two"),
        Seal(B, 9),
        Number(B, 42),
    ]),
    Hand(&[Read(B, 0, b"forty-two"), Failures(1)]),
];

// Which file a file of the hand is, and when it is there.
const COMING: &[FolderStep] = &[
    Hand(&[Create(A), Create(B), Number(A, 1), Number(B, 2)]),
    At("1.val", Has(b"")),
    At("2.val", Has(b"")),
    Hand(&[Append(A, b"one"), Discard(B)]),
    At("2.val", Lacks),
    Hand(&[Seal(A, 3)]),
    At("1.val", Has(b"one")),
    Hand(&[Read(A, 1, b"ne"), Retire(A)]),
    At("1.val", Lacks),
    Hand(&[Create(C)]),
    At("3.val", Has(b"")),
    Hand(&[Seal(C, 0), Number(C, 3)]),
    At("3.val", Has(b"")),
    Hand(&[Failures(0)]),
];

// Files that others shortened or removed.
const LOST: &[FolderStep] = &[
    Hand(&[Create(A), Append(A, b"shortened"), Seal(A, 9), Number(A, 1)]),
    Hand(&[Create(B), Append(B, b"gone"), Seal(B, 4), Number(B, 2)]),
    Hand(&[Create(C), Append(C, b"held open"), Seal(C, 9), Number(C, 3)]),
    At("1.val", Write(b"shortene")),
    Hand(&[NoRead(A, 0), Failures(1)]),
    At("2.val", Remove),
    Hand(&[NoRead(B, 0), NoRetire(B), Failures(3)]),
    // The file that was read last is shortened while the hand has it open.
    Hand(&[Read(C, 0, b"held open")]),
    At("3.val", Write(b"held")),
    Hand(&[NoRead(C, 5), Failures(4)]),
    // What was lost is read again where it is back.
    At("3.val", Write(b"held open")),
    Hand(&[Read(C, 5, b"open"), Failures(4)]),
];

// Two hands in one folder, with the same numbers.
const TWO: &[FolderStep] = &[
    Hand(&[Create(A), Append(A, b"one"), Seal(A, 3), Number(A, 7)]),
    Other(&[Create(B), Append(B, b"two"), Seal(B, 3), Number(B, 8)]),
    Hand(&[Create(C), Append(C, b"three"), Seal(C, 5), Number(C, 9)]),
    // A file that one of them is writing is no pen's of the other.
    Hand(&[Create(D), Number(D, 10)]),
    Other(&[NoAppend(D, b"x")]),
    Hand(&[Discard(D)]),
    // What is sealed in the folder can be read by either.
    Other(&[Read(A, 0, b"one")]),
    Hand(&[Read(B, 0, b"two")]),
    Hand(&[Failures(0)]),
    Other(&[Failures(1)]),
];

// A hand that has its next file ready.
const AHEAD: &[FolderStep] = &[
    // None is ready before a file was retired.
    Ahead(&[Create(A), Append(A, b"one"), Seal(A, 3), Number(A, 1)]),
    At("2.val", Lacks),
    Ahead(&[Read(A, 0, b"one"), Retire(A), Number(A, 1)]),
    At("1.val", Lacks),
    At("2.val", Has(b"")),
    // It is given once.
    Ahead(&[Create(B), Create(C), Number(B, 2), Number(C, 3)]),
    Ahead(&[
        Append(B, b"two"),
        Append(C, b"three"),
        Seal(B, 3),
        Seal(C, 5),
    ]),
    At("2.val", Has(b"two")),
    At("3.val", Has(b"three")),
    // A read is answered again from memory, and one of another place or length is not.
    Ahead(&[Read(B, 0, b"tw")]),
    At("2.val", Write(b"TWO")),
    Ahead(&[
        Read(B, 0, b"tw"),
        Read(B, 1, b"WO"),
        Read(B, 0, b"TWO"),
        Read(B, 0, b"tw"),
    ]),
    // One that was removed is not given.
    Ahead(&[Retire(B)]),
    At("4.val", Has(b"")),
    At("4.val", Remove),
    Ahead(&[Create(B), Number(B, 5), Discard(B)]),
    At("5.val", Lacks),
    // One that cannot be made ahead is no call's failure. What is there is left as it is.
    At("6.val", Write(b"mine")),
    Ahead(&[Retire(C), Failures(0)]),
    At("6.val", Has(b"mine")),
    Ahead(&[Create(C), Seal(C, 0), Number(C, 7)]),
    // A retire that fails makes one too.
    At("7.val", Remove),
    Ahead(&[NoRetire(C), Failures(1)]),
    At("8.val", Has(b"")),
    // At the end the one that is ready is removed.
    AheadEnds,
    At("8.val", Lacks),
    AheadEnds,
    Ahead(&[Create(C), Discard(C), Failures(1)]),
];

// Hands that share what they sealed last.
const SHARED: &[FolderStep] = &[
    Ahead(&[
        Create(A),
        Append(A, b"on"),
        Append(A, b"e"),
        Seal(A, 3),
        Number(A, 1),
    ]),
    // Each of them reads it without the system, at each place.
    At("1.val", Write(b"ONE")),
    Twin(&[Read(A, 1, b"n"), Read(A, 2, b"e"), Read(A, 3, b"")]),
    Ahead(&[Read(A, 0, b"one")]),
    // Where a stamp says that it is longer, the system is asked, and so of a file that nobody wrote.
    Twin(&[Stamped(B, 1, 4), NoRead(B, 0), Failures(1)]),
    Twin(&[Stamped(B, 9, 3), NoRead(B, 0), Failures(2)]),
    // Of two files that are written at a time it is the later one.
    Ahead(&[Create(B), Create(C), Append(B, b"two"), Append(C, b"three")]),
    Ahead(&[Seal(B, 3), Seal(C, 5), Number(B, 2), Number(C, 3)]),
    At("2.val", Write(b"TWO")),
    At("3.val", Write(b"THREE")),
    Twin(&[Read(B, 0, b"TWO"), Read(C, 0, b"three")]),
    // What one of them retires is shared no more.
    Ahead(&[Retire(C)]),
    At("3.val", Lacks),
    Twin(&[NoRead(C, 1), Failures(3)]),
    AheadEnds,
    // It is the last eight that are shared.
    Ahead(&[Create(D), Append(D, b"4"), Seal(D, 1)]),
    Ahead(&[Create(D), Append(D, b"5"), Seal(D, 1)]),
    Ahead(&[Create(D), Append(D, b"6"), Seal(D, 1)]),
    Ahead(&[Create(D), Append(D, b"7"), Seal(D, 1)]),
    Ahead(&[Create(D), Append(D, b"8"), Seal(D, 1)]),
    Ahead(&[Create(D), Append(D, b"9"), Seal(D, 1)]),
    Twin(&[Read(A, 0, b"one"), Read(B, 0, b"TWO")]),
    Ahead(&[Create(D), Append(D, b"last"), Seal(D, 4)]),
    Twin(&[Read(D, 1, b"ast"), Read(A, 0, b"ON")]),
];

// The five files of the next script, each of them read whole.
const FIVE: &[HandCall] = &[
    Read(A, 0, b"one"),
    Read(B, 0, b"two"),
    Read(C, 0, b"thr"),
    Read(D, 0, b"fou"),
    Read(E, 0, b"fiv"),
];

// A hand that keeps what it read last: five files, as a part may have them, which another hand wrote.
const AGAIN: &[FolderStep] = &[
    Hand(&[
        Create(A),
        Create(B),
        Create(C),
        Create(D),
        Create(E),
        Append(A, b"one"),
        Append(B, b"two"),
        Append(C, b"thr"),
        Append(D, b"fou"),
        Append(E, b"fiv"),
        Seal(A, 3),
        Seal(B, 3),
        Seal(C, 3),
        Seal(D, 3),
        Seal(E, 3),
    ]),
    Ahead(FIVE),
    // The second time none of them is asked of the system.
    At("1.val", Write(b"ONE")),
    At("2.val", Write(b"TWO")),
    At("3.val", Write(b"THR")),
    At("4.val", Write(b"FOU")),
    At("5.val", Write(b"FIV")),
    Ahead(FIVE),
    // Eight are kept.
    Ahead(&[Read(B, 1, b"W"), Read(B, 2, b"O"), Read(B, 0, b"TW")]),
    At("2.val", Write(b"new")),
    Ahead(FIVE),
    Ahead(&[Read(B, 1, b"W"), Read(B, 2, b"O"), Read(B, 0, b"TW")]),
    // A ninth one takes the place of the one that was kept longest, whether or not that was asked for since, and a
    // tenth one that of the next.
    Ahead(&[Read(B, 0, b"n"), Read(B, 0, b"two"), Read(E, 0, b"fiv")]),
    Ahead(&[Read(A, 0, b"ONE"), Read(B, 0, b"new"), Read(D, 0, b"fou")]),
    // What the hand retires is kept no more, and all else is.
    Ahead(&[Retire(D)]),
    At("4.val", Write(b"FOU")),
    At("1.val", Write(b"one")),
    Ahead(&[
        Read(A, 0, b"ONE"),
        Read(B, 2, b"O"),
        Read(E, 0, b"fiv"),
        Read(D, 0, b"FOU"),
        Failures(0),
    ]),
    AheadEnds,
];

// The one file that a name has, and that nothing else is left.
const NAMES: &[FolderStep] = &[
    At("in", MakeFolder),
    Shelf(&[Store(b"cell.v", b"first")]),
    At("in/cell.v.part", Has(b"first")),
    At("in/cell.v.new", Lacks),
    Shelf(&[Store(b"cell.v", b"then")]),
    At("in/cell.v.part", Has(b"then")),
    At("in/cell.v.new", Lacks),
    // What a write that was broken off left is no part, and the next store replaces it.
    At("in/cell.v.new", Write(b"half")),
    Shelf(&[Load(b"cell.v", b"then"), Store(b"cell.v", b"x")]),
    At("in/cell.v.part", Has(b"x")),
    // What was stored in an earlier process is loaded.
    At("in/cell.w.part", Write(b"earlier")),
    Shelf(&[Load(b"cell.w", b"earlier")]),
    At("in/cell.w.part", Remove),
    // The first and the last byte that a name may have.
    Shelf(&[Store(b"!~", b"edge")]),
    At("in/!~.part", Has(b"edge")),
    Shelf(&[ShelfCall::Failures(0)]),
    At("in/cell.v.part", Remove),
    At("in/!~.part", Remove),
    At("in", RemoveFolder),
];

// Names that no file may have: nothing is stored or loaded under them, and no file is touched.
const BAD_NAMES: &[FolderStep] = &[
    At("in", MakeFolder),
    Shelf(&[
        NoStore(b"a/b", b"bytes"),
        NoLoad(b"a/b"),
        ShelfCall::Failures(2),
    ]),
    Shelf(&[
        NoStore(b"/", b"bytes"),
        NoLoad(b"/"),
        ShelfCall::Failures(4),
    ]),
    Shelf(&[
        NoStore(b"../up", b"bytes"),
        NoLoad(b"../up"),
        ShelfCall::Failures(6),
    ]),
    Shelf(&[
        NoStore(b"a b", b"bytes"),
        NoLoad(b"a b"),
        ShelfCall::Failures(8),
    ]),
    Shelf(&[
        NoStore(b" ", b"bytes"),
        NoLoad(b" "),
        ShelfCall::Failures(10),
    ]),
    Shelf(&[
        NoStore(b"a\n", b"bytes"),
        NoLoad(b"a\n"),
        ShelfCall::Failures(12),
    ]),
    Shelf(&[
        NoStore(b"\0", b"bytes"),
        NoLoad(b"\0"),
        ShelfCall::Failures(14),
    ]),
    Shelf(&[
        NoStore(b"a\x1F", b"bytes"),
        NoLoad(b"a\x1F"),
        ShelfCall::Failures(16),
    ]),
    Shelf(&[
        NoStore(b"a\x7F", b"bytes"),
        NoLoad(b"a\x7F"),
        ShelfCall::Failures(18),
    ]),
    Shelf(&[
        NoStore(b"a\xC3\xA9", b"bytes"),
        NoLoad(b"a\xC3\xA9"),
        ShelfCall::Failures(20),
    ]),
    Shelf(&[
        NoStore(b"\xFF", b"bytes"),
        NoLoad(b"\xFF"),
        ShelfCall::Failures(22),
    ]),
    Shelf(&[Nothing(b"a.b"), ShelfCall::Failures(22)]),
    At("up.part", Lacks),
    At("up.new", Lacks),
    // The folder is empty.
    At("in", RemoveFolder),
];

// A folder stands where a file has to be: the system refuses to read it, to write it and to replace it.
const IN_PLACE: &[FolderStep] = &[
    Shelf(&[Store(b"a.v", b"old")]),
    At("a.v.new", MakeFolder),
    Shelf(&[
        NoStore(b"a.v", b"new"),
        ShelfCall::Failures(1),
        Load(b"a.v", b"old"),
    ]),
    At("a.v.new", RemoveFolder),
    Shelf(&[Store(b"a.v", b"new"), Load(b"a.v", b"new")]),
    At("a.w.part", MakeFolder),
    Shelf(&[
        NoLoad(b"a.w"),
        NoStore(b"a.w", b"new"),
        ShelfCall::Failures(3),
    ]),
];

// The folder of the devices is not there. Once it is, files are made in it.
const MISSING: &[FolderStep] = &[
    Hand(&[
        NoCreate,
        Stamped(A, 1, 4),
        NoRead(A, 0),
        NoRetire(A),
        Failures(3),
    ]),
    Shelf(&[NoStore(b"a.v", b"new"), ShelfCall::Failures(1)]),
    // No file of the name is there.
    Shelf(&[Nothing(b"a.v"), ShelfCall::Failures(1)]),
    At("missing", MakeFolder),
    Hand(&[Create(B), Append(B, b"late"), Seal(B, 4), Number(B, 2)]),
    Hand(&[Read(B, 0, b"late"), Failures(3)]),
    Shelf(&[Store(b"a.v", b"new"), Load(b"a.v", b"new")]),
];

// A folder that can be read and not written. Where the system lets this process write there all the same, as it lets
// the superuser, only what is not refused is seen.
const ONLY_READ: &[FolderStep] = &[
    Hand(&[Create(A), Append(A, b"kept"), Seal(A, 4), Create(B)]),
    Shelf(&[Store(b"cell.v", b"kept")]),
    At(".", Mode(0o555)),
    Denied(
        &[NoCreate, NoRetire(A), Failures(2)],
        &[
            NoStore(b"cell.v", b"other"),
            NoStore(b"cell.w", b"other"),
            ShelfCall::Failures(2),
            Nothing(b"cell.w"),
        ],
    ),
    // What is there can be read, and a file that is open can be written.
    Hand(&[Read(A, 0, b"kept")]),
    Shelf(&[Load(b"cell.v", b"kept")]),
    Hand(&[Append(B, b"more"), Seal(B, 4), Read(B, 0, b"more")]),
    At(".", Mode(0o755)),
];

// Of each script: its name, the folder of its devices, which is `.` or is made by the script, and their first number.
const SCRIPTS: [(&str, &str, u64, &[FolderStep]); 13] = [
    ("all", ".", 1, &[All]),
    ("there", ".", 40, THERE),
    ("come", ".", 1, COMING),
    ("lost", ".", 1, LOST),
    ("two", ".", 7, TWO),
    ("ahead", ".", 1, AHEAD),
    ("shared", ".", 1, SHARED),
    ("again", ".", 1, AGAIN),
    ("name", "in", 1, NAMES),
    ("bad", "in", 1, BAD_NAMES),
    ("place", ".", 1, IN_PLACE),
    ("none", "missing", 1, MISSING),
    ("read", ".", 1, ONLY_READ),
];

// Plays a script in a new folder of a process. Its first line has this number.
fn play<R>(
    rt: R,
    process: u32,
    script: (&str, &str, u64, &[FolderStep]),
    line: usize,
) -> io::Result<()>
where
    R: Abort + Files + AllocGlobal + Copy + Drop,
    R::File: FileExt,
{
    let (name, devices, first, lines) = script;
    let scratch = Scratch::new(rt, process, name)?;
    let folder = scratch.path(devices)?;
    let mut place = SharedFolder::new(rt, folder.as_str(), first)?;
    place.play(&rt, rt.alloc(), &scratch, lines, line);
    scratch.remove()
}

// Catches all edits of this crate: what is in a folder at each moment.
// Line 203 is that of number 3 of the script of number 2, both counted from 0.
#[test]
fn devices_in_folders(rt: HostRuntime) {
    let process = process::id(rt.process());
    for (number, script) in SCRIPTS.iter().enumerate() {
        play(rt, process, *script, 100 * number).expect(&rt, "a folder");
    }
}
