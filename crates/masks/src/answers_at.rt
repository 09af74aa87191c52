// An answer over places as one over sets.
ghost use Rattle.std.specs.Prelude.{◌≡◌, ◌≤◌};
ghost use Rattle.kinds.specs.Limits.{walk_atoms};
ghost use Rattle.masks.specs.AnswersAt.{verdict_at, next_at};

use places::turning::turned;
use walks::answers::{NextState, Verdict};

pub fn verdict_at(verdict: Verdict, atoms: usize) -> Verdict
    requires { atoms ≤ walk_atoms }
    ensures { result ≡ verdict_at atoms verdict }
{
    let Verdict::Beaten { set: place, units } = verdict else {
        return verdict;
    };
    Verdict::Beaten {
        set: turned(place, atoms),
        units,
    }
}

pub fn next_at(next: NextState, atoms: usize) -> NextState
    requires { atoms ≤ walk_atoms }
    ensures { result ≡ next_at atoms next }
{
    let NextState::State { set: place, units } = next else {
        return next;
    };
    NextState::State {
        set: turned(place, atoms),
        units,
    }
}
