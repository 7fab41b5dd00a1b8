//! The laws, each a function without a body whose contract it is.

ghost use Rattle.history_law.specs.Done.{LinesAreAnswered, CrashLeavesDone};
ghost use Rattle.history_law.specs.Open.{RepeatsAreOfOpen, CrashLeavesOpen};
ghost use Rattle.history_law.specs.Once.{EndsAreToldOnce, CrashLeavesToldOnce};
ghost use Rattle.history_law.specs.TurnWritten.{AnswersAreWritten, CrashLeavesServed, HonestServesAll};

/// Over any turns no two connections are told how one call ended, and none is told so twice: of each object there
/// is a list of the calls that ended, in the one history, each with the connection that was told of it, if one was;
/// and the ends of its talk are, in their order, just those that this list has as its own.
pub fn ends_are_told_once()
    ensures { EndsAreToldOnce }
{}

/// After a crash, where answers wait for the disk, the one history of turns is such.
pub fn crash_leaves_told_once()
    ensures { CrashLeavesToldOnce }
{}

/// The bytes that any turns say to a connection, from its coming on, are the texts of its talk, put together.
pub fn answers_are_written()
    ensures { AnswersAreWritten }
{}

/// From the bytes of a client to its bytes, at each moment of a loop that is honest, as `keep_loop::rounds::run`
/// is: there is one history of turns; what a connection said is cut into the lines of its talk in it, and begins
/// with them; and what it was written is a front of the texts of this talk, put together.
pub fn honest_serves_all()
    ensures { HonestServesAll }
{}

/// After a crash, where answers wait for the disk, the one history of turns is such.
pub fn crash_leaves_served()
    ensures { CrashLeavesServed }
{}

/// What a line is answered in its turn, by another text than `accepted`, is what its line asks for, at a moment of
/// what happened in that turn: one that opens an object the next key, a call what its key says, a `cancel` what
/// became of the call of its number; or why not. So a repeat that is told is of the call of this key: an object
/// that a line of this connection had asked to open remembers it under the key that the line has, it asked for just
/// what the line asks for, and it stands in the one history; or it was told of before these turns, or the front of
/// the oldest epoch has it.
pub fn lines_are_answered()
    ensures { LinesAreAnswered }
{}

/// After a crash, where answers wait for the disk, the one history of turns is such.
pub fn crash_leaves_done()
    ensures { CrashLeavesDone }
{}

/// What a connection has open is known behind each front of its talk: what the last line asked to open that was told
/// so, since it came. And a repeat that is told is of just that: the object that remembers the call has the name that
/// this line said, and the client of which it remembers it is the one that this line said. It is the repeat of which
/// `lines_are_answered` tells. Each call that a connection is told the end of ran at the object that it has open: the
/// object at its place has the name that this line said. And where a call of it is accepted, or is cancelled while it
/// waits, something is open.
pub fn repeats_are_of_open()
    ensures { RepeatsAreOfOpen }
{}

/// After a crash, where answers wait for the disk, the one history of turns is such.
pub fn crash_leaves_open()
    ensures { CrashLeavesOpen }
{}
