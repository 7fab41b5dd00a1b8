//! What lines of a past tell: each says something by itself.

ghost use Rattle.std.specs.Prelude.{IsTrue};
ghost use Rattle.live_core.specs.Front.{Every};
ghost use Rattle.live_core.specs.Fits.{RunFits};

use crate::past::PastRun;

/// The most calls of which one line tells.
const MOST_CALLS: u32 = 65_536;

// Whether a line of a past tells of an operation, of so many, and of 1 to 65,536 calls, where it tells of whole ones.
fn is_run(run: &PastRun, operations: usize) -> bool
    ensures { IsTrue result → RunFits operations run.now }
{
    match run {
        PastRun::Calls(op, count) => {
            (*op as usize) < operations && 1 <= *count && *count <= MOST_CALLS
        }
        PastRun::Begins(op) => (*op as usize) < operations,
        PastRun::Ends(op) => (*op as usize) < operations,
    }
}

/// Whether all do. So it is of a past that was found, and it is looked at for that alone.
pub(crate) fn are_runs(runs: &[PastRun], operations: usize) -> bool
    ensures { IsTrue result → Every (RunFits operations) runs.now }
{
    let mut rest = runs;
    'runs: while let Some((run, more)) = rest.split_first() {
        if !is_run(run, operations) {
            return false;
        }
        rest = more;
    }
    true
}
