// A mark for each atom that stands in a rule, and each atom's place among those marked.
ghost use Rattle.std.specs.Prelude.{◌≡◌, ℕ, ◌≤◌, ◌<◌, length, get_or};
ghost use Rattle.rules.specs.Lists.{All};
ghost use Rattle.stores.specs.RuleStore.{rule_at, rules_from};
ghost use Rattle.stores.specs.StoredRules.{StoredRule, StoredRules};
ghost use Rattle.restriction.specs.Atoms.{is_member, atoms_of, is_used};
ghost use Rattle.used_atoms.specs.Marks.{Marks, marked};

use stores::rule_words::rule_size;

fn mark_atoms(atoms: &[u16], marks: &mut [bool])
    requires { All (λ a. a < length marks.old) atoms.now }
    ensures { Marks (is_member atoms.now) marks.old marks.new }
{
    for a in atoms {
        marks[*a as usize] = true;
    }
}

// The atoms of the rule at the front.
fn mark_rule(words: &[u16], marks: &mut [bool])
    requires { StoredRule (length marks.old) words.now }
    ensures { Marks (is_member (atoms_of (rule_at words.now))) marks.old marks.new }
{
    let size = rule_size(words);
    mark_atoms(&words[3..size], marks);
}

pub fn mark_rules(words: &[u16], count: usize, marks: &mut [bool])
    requires { StoredRules (length marks.old) count words.now }
    ensures { Marks (is_used (rules_from count words.now)) marks.old marks.new }
{
    let mut from: usize = 0;
    for _ in 0..count {
        let size = rule_size(&words[from..]);
        mark_rule(&words[from..], marks);
        from += size;
    }
}

// Each atom's place among the marked ones, and how many these are.
pub fn number_atoms(marks: &[bool], n: usize, numbers: &mut [u16]) -> usize
    requires { (n ≤ length marks.now) × (n ≤ length numbers.old) × (n < 65536) }
    ensures value { result ≡ length (marked n marks.now) }
    ensures by_index { (a : ℕ) → a < n → get_or numbers.new a 0 ≡ length (marked a marks.now) }
{
    let mut left: usize = 0;
    for (i, mark) in marks[..n].iter().enumerate() {
        numbers[i] = left as u16;
        if *mark {
            left += 1;
        }
    }
    left
}
