// An index read along the rules of its store.
ghost use Rattle.std.specs.Prelude.{◌≡◌, true, ◌+◌, ◌≤◌, ◌<◌, eqb, length};
ghost use Rattle.rules.specs.Lists.{All};
ghost use Rattle.stores.specs.Checking.{Below};
ghost use Rattle.stores.specs.RuleStore.{rules_from};
ghost use Rattle.stores.specs.StoredRules.{StoredRules};
ghost use Rattle.name_store.specs.NameStore.{same_bytes as same_words};
ghost use Rattle.restriction.specs.Atoms.{is_member};
ghost use Rattle.rule_index.specs.Index.{index as index_with};
ghost use Rattle.rule_index.specs.Passing.{Raised};
ghost use Rattle.rule_index.specs.Places.{list_at, Placed};
ghost use Rattle.index_check.specs.Lists.{are_entries, are_all_listed, is_all_read, Tabled, Lists, Read};

use rule_index::marks::first_here;
use stores::rule_words::rule_size;

// Where the entries of each list begin and end, if the lists are all the words.
fn find_lists(index: &[u16], next: &mut [usize], ends: &mut [usize]) -> bool
    requires { length next.old ≤ length ends.old }
    ensures value { result ≡ eqb (list_at index.now (length next.old)) (length index.now) }
    ensures lists { result ≡ true → Lists index.now next.new ends.new }
{
    let mut at: usize = 0;
    for a in 0..next.len() {
        if index.len() <= at {
            return false;
        }
        let first = at + 1;
        let count = index[at] as usize;
        if index.len() - first < count {
            return false;
        }
        at = first + count;
        next[a] = first;
        ends[a] = at;
    }
    at == index.len()
}

// Whether the rule is the next entry in the list of each of its atoms; each of these lists is then read one entry further.
fn rule_listed(
    atoms: &[u16],
    rule: u16,
    index: &[u16],
    next: &mut [usize],
    ends: &[usize],
    marks: &mut [u16],
) -> bool
    requires all { All (Tabled index.now next.old ends.now marks.old) atoms.now }
    requires rule_bound { (rule < 65535) × Below (rule + 1) marks.old }
    ensures value { result ≡ are_entries index.now next.old ends.now rule atoms.now }
    ensures raised { result ≡ true → Raised (is_member atoms.now) next.old next.new }
    ensures below { Below (rule + 2) marks.new }
{
    let stamp = rule + 1;
    for atom in atoms {
        let a = *atom as usize;
        let first = first_here(marks, a, stamp);
        if first {
            let at = next[a];
            if ends[a] <= at {
                return false;
            }
            if index[at] != rule {
                return false;
            }
            next[a] = at + 1;
        }
    }
    true
}

// The same for all rules, the first one at the front of the words; `places` gets where each of them starts.
fn rules_listed(
    words: &[u16],
    count: usize,
    index: &[u16],
    next: &mut [usize],
    ends: &[usize],
    marks: &mut [u16],
    places: &mut [usize],
) -> bool
    requires stored_rules { StoredRules (length next.old) count words.now × (count < 65535) × Lists index.now next.old ends.now }
    requires next_in_bounds { (length next.old ≤ length ends.now) × (length next.old ≤ length marks.old) × Below 1 marks.old × (count ≤ length places.old) }
    ensures value { result ≡ are_all_listed index.now (rules_from count words.now) }
    ensures read { result ≡ true → Read index.now (rules_from count words.now) count next.new }
    ensures placed { result ≡ true → Placed (length next.old) count words.now places.new }
{
    let mut from: usize = 0;
    for i in 0..count {
        let size = rule_size(&words[from..]);
        let atoms = from + 3;
        let end = from + size;
        let listed = rule_listed(&words[atoms..end], i as u16, index, next, ends, marks);
        if !listed {
            return false;
        }
        places[i] = from;
        from = end;
    }
    true
}

// Whether each list is read to its end.
fn all_read(next: &[usize], ends: &[usize]) -> bool
    requires { length next.now ≤ length ends.now }
    ensures { result ≡ is_all_read next.now ends.now }
{
    next.iter().zip(ends).all(|(at, end)| at == end)
}

// Whether `index` is the index of the rules; `places` then has where they start. `next` is as long as there are atoms.
pub fn is_index_of(
    words: &[u16],
    count: usize,
    index: &[u16],
    next: &mut [usize],
    ends: &mut [usize],
    marks: &mut [u16],
    places: &mut [usize],
) -> bool
    requires stored_rules { StoredRules (length next.old) count words.now × (count < 65535) }
    requires next_in_bounds { (length next.old ≤ length ends.old) × (length next.old ≤ length marks.old) × Below 1 marks.old × (count ≤ length places.old) }
    ensures value { result ≡ same_words index.now (index_with (length next.old) (rules_from count words.now)) }
    ensures placed { result ≡ true → Placed (length next.old) count words.now places.new }
{
    let found = find_lists(index, next, ends);
    if !found {
        return false;
    }
    let listed = rules_listed(words, count, index, next, ends, marks, places);
    if !listed {
        return false;
    }
    all_read(next, ends)
}
