// The answer to a call without the faults 10, 19, 11 and 12.
ghost use Rattle.std.specs.Prelude.{◌≡◌, ◌≤◌, length, drop};
ghost use Rattle.kinds.specs.Limits.{rule_limit};
ghost use Rattle.kinds.specs.declared.limits.Kind.TheVariants.{Plain as KindPlain};
ghost use Rattle.output.specs.Emitted.{Emitted};
ghost use Rattle.rule_index.specs.Answers.{flip_list, fitted};
ghost use Rattle.rule_index.specs.Places.{Placed};
ghost use Rattle.flipping.specs.Checked.{Checked, fitted_output};

use crate::breaking::flipped_set;
use crate::joining::join;
use crate::own_rules::own_start;
use kinds::refusals::Refusal;
use output::words::emit;
use rule_index::Filled;
use stores::rule_store::Header;

// Writes the list as the flip leaves it; `places` has where each rule starts, and is as long as there are rules.
fn fill_list(
    rules: &[u16],
    header: Header,
    index: &[u16],
    list: &[u16],
    set: u64,
    atom: u64,
    places: &[usize],
    out: &mut [u16],
) -> usize
    requires { Checked rules.now header index.now list.now set atom × Placed header.atoms header.rules (drop header.start rules.now) places.now × (length places.now ≡ header.rules) }
    ensures { Emitted out.old 0 (flip_list rules.now list.now set atom) out.new result }
{
    let start = header.start;
    let from = own_start(index, atom as usize);
    let end = from + 1 + index[from] as usize;
    let flipped = flipped_set(set, atom);
    join(
        &rules[start..],
        places,
        list,
        &index[from + 1..end],
        flipped,
        out,
    )
}

// The list, made in `answer`, and copied to `out` where that has room for it (refusal 9).
pub fn flip_checked(
    rules: &[u16],
    header: Header,
    index: &[u16],
    list: &[u16],
    set: u64,
    atom: u64,
    places: &[usize],
    answer: &mut [u16],
    out: &mut [u16],
) -> Filled
    requires checked { Checked rules.now header index.now list.now set atom × Placed header.atoms header.rules (drop header.start rules.now) places.now }
    requires rule_limit_in_bounds { (rule_limit KindPlain ≤ length places.now) × (rule_limit KindPlain ≤ length answer.old) }
    ensures answer { result ≡ fitted (flip_list rules.now list.now set atom) (length out.old) }
    ensures output { out.new ≡ fitted_output (flip_list rules.now list.now set atom) out.old }
{
    let count = header.rules;
    let size = fill_list(
        rules,
        header,
        index,
        list,
        set,
        atom,
        &places[..count],
        answer,
    );
    if out.len() < size {
        return Err(Refusal::Output);
    }
    emit(&answer[..size], out, 0);
    Ok(size)
}
