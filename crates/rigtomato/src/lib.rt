#![tactic(auto)]
// The public entry points (documents 01 and 02). None asks anything of its caller.

ghost use Rattle.std.specs.Prelude.{◌≡◌, length};
ghost use Rattle.answers.specs.Writing.{write_answer, write_output};
ghost use Rattle.answers.specs.WritingCanonical.{canonical_answer, canonical_output};
ghost use Rattle.answers.specs.Reading.{read_answer, read_rules, read_names};
ghost use Rattle.answers.specs.ReadingClauses.{clauses_answer, clauses_rules, clauses_names};
ghost use Rattle.answers.specs.Translating.{translate_answer, translate_output};
ghost use Rattle.walks.specs.Answers.{preferred_answer, stable_answer, next_answer, place_answer};
ghost use Rattle.rule_index.specs.Answers.{index_answer, index_output, add_answer, add_store, add_index, flip_answer, flip_output};

// A text of either kind into its two stores.
pub fn read(text: &[u8], rules: &mut [u16], names: &mut [u8]) -> answers::Read
    ensures answer { result ≡ read_answer text.now (length rules.old) (length names.old) }
    ensures rules { rules.new ≡ read_rules text.now rules.old names.old }
    ensures names { names.new ≡ read_names text.now rules.old names.old }
{
    reader::read(text, rules, names)
}

// A clause file into the two stores of its preference program (document 02, W-202).
pub fn read_clauses(text: &[u8], rules: &mut [u16], names: &mut [u8]) -> answers::Read
    ensures answer { result ≡ clauses_answer text.now (length rules.old) (length names.old) }
    ensures rules { rules.new ≡ clauses_rules text.now rules.old names.old }
    ensures names { names.new ≡ clauses_names text.now rules.old names.old }
{
    clause_reader::read_clauses(text, rules, names)
}

// The text of two stores.
pub fn write(rules: &[u16], names: &[u8], out: &mut [u8]) -> answers::Written
    ensures answer { result ≡ write_answer rules.now names.now (length out.old) }
    ensures output { out.new ≡ write_output rules.now names.now out.old }
{
    writer::write(rules, names, out)
}

// The canonical text of two stores (document 02, W-205).
pub fn write_canonical(rules: &[u16], names: &[u8], out: &mut [u8]) -> answers::Written
    ensures answer { result ≡ canonical_answer rules.now names.now (length out.old) }
    ensures output { out.new ≡ canonical_output rules.now names.now out.old }
{
    canonical_writer::write_canonical(rules, names, out)
}

// The text of the plain program of a preference file's stores.
pub fn translate(rules: &[u16], names: &[u8], out: &mut [u8]) -> answers::Written
    ensures answer { result ≡ translate_answer rules.now names.now (length out.old) }
    ensures output { out.new ≡ translate_output rules.now names.now out.old }
{
    translation::translate(rules, names, out)
}

// Whether a set of a preference store's atoms is preferred.
pub fn preferred(rules: &[u16], set: u64, budget: u64) -> walks::answers::Verdict
    ensures { result ≡ preferred_answer rules.now set budget }
{
    preferred_verdict::preferred::preferred(rules, set, budget)
}

// Whether a set of a plain store's atoms is stable.
pub fn stable(rules: &[u16], set: u64, budget: u64) -> walks::answers::Verdict
    ensures { result ≡ stable_answer rules.now set budget }
{
    stable_verdict::stable::stable(rules, set, budget)
}

// The first preferred set from a place on.
pub fn next_state(rules: &[u16], start: u64, budget: u64) -> walks::answers::NextState
    ensures { result ≡ next_answer rules.now start budget }
{
    lister::next::next_state(rules, start, budget)
}

// The place of a set of a preference store's atoms.
pub fn place(rules: &[u16], set: u64) -> walks::answers::Place
    ensures { result ≡ place_answer rules.now set }
{
    lister::place::place(rules, set)
}

// The index of a store's rules by their atoms (document 02, W-209).
pub fn index_rules(rules: &[u16], out: &mut [u16]) -> rule_index::Filled
    ensures answer { result ≡ index_answer rules.now (length out.old) }
    ensures output { out.new ≡ index_output rules.now out.old }
{
    index_build::index_rules(rules, out)
}

// A store with a rule added at its end, and its index.
pub fn add_rule(
    rules: &[u16],
    index: &[u16],
    rule: &[u16],
    rules_out: &mut [u16],
    index_out: &mut [u16],
) -> rule_index::Grown
    ensures answer { result ≡ add_answer rules.now index.now rule.now (length rules_out.old) (length index_out.old) }
    ensures store { rules_out.new ≡ add_store rules.now index.now rule.now rules_out.old index_out.old }
    ensures grown { index_out.new ≡ add_index rules.now index.now rule.now rules_out.old index_out.old }
{
    rule_adding::add_rule(rules, index, rule, rules_out, index_out)
}

// A list of rules as the flip of an atom leaves it: from a set's broken rules, the flipped set's.
pub fn flip(
    rules: &[u16],
    index: &[u16],
    list: &[u16],
    set: u64,
    atom: u64,
    out: &mut [u16],
) -> rule_index::Filled
    ensures answer { result ≡ flip_answer rules.now index.now list.now set atom (length out.old) }
    ensures output { out.new ≡ flip_output rules.now index.now list.now set atom out.old }
{
    flipping::flip(rules, index, list, set, atom, out)
}
