// A set's place in the order of the walks, from which a caller can go on (document 02, W-206).
ghost use Rattle.std.specs.Prelude.{◌≡◌, ◌≤◌};
ghost use Rattle.kinds.specs.Limits.{walk_atoms};
ghost use Rattle.stores.specs.RuleStore.{StoreOf, decode};
ghost use Rattle.places.specs.Places.{place as place_in};
ghost use Rattle.walks.specs.Answers.{place_answer};

use kinds::limits::Kind;
use masks::guard::check_call;
use places::turning::turned;
use walks::answers::Place;

// The place of a set of a checked store's atoms.
fn place_of(words: &[u16], set: u64) -> u64
    requires store_of { StoreOf words.now (decode words.now) }
    requires words_bound { (decode words.now).atoms ≤ walk_atoms }
    ensures { result ≡ place_in (decode words.now).atoms set }
{
    let atoms = words[1] as usize;
    turned(set, atoms)
}

// The place of a set of a preference store's atoms; no budget is asked for, so none is too large.
pub fn place(words: &[u16], set: u64) -> Place
    ensures { result ≡ place_answer words.now set }
{
    check_call(words, Kind::Preference, set, 0, 0)?;
    Ok(place_of(words, set))
}
