// Whether a set breaks a rule, and the set with an atom flipped.
ghost use Rattle.std.specs.Prelude.{◌≡◌, ◌&&◌, cond, ◌^◌, ◌<◌, leb, ltb};
ghost use Rattle.kinds.specs.Limits.{walk_atoms};
ghost use Rattle.stores.specs.RuleStore.{rule_at};
ghost use Rattle.stores.specs.StoredRules.{StoredRule};
ghost use Rattle.rule_index.specs.Flip.{is_broken, flipped};

// 1 where the place `i` lies in the body, 0 elsewhere.
fn in_body(i: usize, body: usize, not: usize) -> u64
    ensures { result ≡ cond (leb body i && ltb i not) 1 0 }
{
    ((body <= i) & (i < not)) as u64
}

// Whether the set breaks the rule at the front: of its atoms just those of the body are in.
// No branches inside the loop, for they are hard to predict here: the lowest bit of `odd` says that some atom is not so.
pub fn breaks(words: &[u16], set: u64) -> bool
    requires { StoredRule walk_atoms words.now }
    ensures { result ≡ is_broken set (rule_at words.now) }
{
    let body = 3 + words[0] as usize;
    let not = body + words[1] as usize;
    let end = not + words[2] as usize;
    let mut odd: u64 = 0;
    for i in 3..end {
        let place = words[i] as u64;
        odd |= (set >> place) ^ in_body(i, body, not);
    }
    odd % 2 == 0
}

// The set with the atom taken out or put in.
pub fn flipped_set(set: u64, atom: u64) -> u64
    requires { (set < 2 ^ walk_atoms) × (atom < walk_atoms) }
    ensures { result ≡ flipped set atom }
{
    let one = 1u64 << atom;
    if (set >> atom) % 2 == 1 {
        return set - one;
    }
    set + one
}
