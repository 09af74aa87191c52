// The lists of one rule of a rule store (document 01, "then for each rule three counts and the atom numbers").
ghost use Rattle.std.specs.Prelude.{◌≡◌, [], ◌+◌, ◌≤◌, length, take, drop};
ghost use Rattle.rules.specs.Rules.{rule};
ghost use Rattle.stores.specs.Checking.{Below};
ghost use Rattle.stores.specs.RuleStore.{is_list, are_lists, is_not};

use kinds::limits::Kind;

// One list of a rule. An atom that stood in it has `stamp` as its mark.
fn list_form(list: &[u16], atoms: usize, marks: &mut [u16], stamp: u16) -> bool
    requires { (atoms ≤ length marks.old) × Below stamp marks.old }
    ensures { (result ≡ is_list atoms [] list.now) × Below (stamp + 1) marks.new }
{
    for word in list {
        let a = *word as usize;
        if atoms <= a {
            return false;
        }
        if marks[a] == stamp {
            return false;
        }
        marks[a] = stamp;
    }
    true
}

// The three lists of a rule, with a stamp each.
pub fn lists_form(
    words: &[u16],
    at: usize,
    heads: usize,
    bodies: usize,
    nots: usize,
    atoms: usize,
    marks: &mut [u16],
    stamp: u16,
) -> bool
    requires { (at + (heads + bodies + nots) ≤ length words.now) × (atoms ≤ length marks.old) × (stamp ≤ 65532) × Below stamp marks.old }
    ensures { (result ≡ are_lists atoms (rule (take heads (drop at words.now)) (take bodies (drop (at + heads) words.now)) (take nots (drop (at + heads + bodies) words.now)))) × Below (stamp + 3) marks.new }
{
    let body = at + heads;
    let not = body + bodies;
    let end = not + nots;
    if !list_form(&words[at..body], atoms, marks, stamp) {
        return false;
    }
    if !list_form(&words[body..not], atoms, marks, stamp + 1) {
        return false;
    }
    list_form(&words[not..end], atoms, marks, stamp + 2)
}

// A preference store's `not` lists are empty.
pub fn not_form(kind: Kind, nots: usize) -> bool
    ensures { result ≡ is_not kind nots }
{
    match kind {
        Kind::Plain => true,
        Kind::Preference => nots == 0,
    }
}
