// The lister: every preferred state, then their number (document 01, "Sheets of known states").
ghost use Rattle.std.specs.Prelude.{◌≡◌};
ghost use Rattle.kinds.specs.declared.limits.Kind.TheVariants.{Preference as KindPreference};
ghost use Rattle.stores.specs.RuleStore.{StoreOf, decode};
ghost use Rattle.name_store.specs.NameStore.{NamesOf, decode_names};
ghost use Rattle.output.specs.Emitted.{Emitted, InRange};
ghost use Rattle.text.specs.PlacedNames.{names_in};
ghost use Rattle.printing.specs.Parts.{Shown};
ghost use Rattle.answers.specs.Listed.{whole_listing, streamed, states_of};
ghost use Rattle.listing.specs.ListedMasks.{ListedNames, ListedStores, ListedMasks, SortableMasks, SortedListing, Limited, last_line, plan_listing};

use groups::grouping::fill_tables;
use groups::plan::Plan;
use kinds::limits::{Kind, Preference, Walk};
use kinds::refusals::Refusal;
use lister::candidates::next_masks;
use masks::masks::fill_masks;
use output::bytes::emit;
use places::turning::turned;
use printing::printing::{emit_state, emit_total, show, show_refused};
use text::atoms::place_names;
use text::placed::PlacedNames;
use walks::answers::NextState;

// What stands after the states.
fn emit_last(found: NextState, count: u64, out: &mut [u8], at: usize) -> usize
    requires { InRange at (last_line found count) }
    ensures { Emitted out.old at (last_line found count) out.new result }
{
    match found {
        NextState::Nothing { .. } => emit_total(count, out, at),
        NextState::Spent { .. } => emit(b"(spent)\n", out, at),
        NextState::State { .. } | NextState::Refused { .. } => at,
    }
}

// The listing over sorted masks; it stops where it passes the size of an output.
fn emit_listing(
    plan: &mut [u64; Plan::WORDS],
    fixed: u64,
    atoms: usize,
    names: &PlacedNames,
    out: &mut [u8],
) -> usize
    requires { ListedMasks plan.old atoms names.now.bytes.now names.now.starts.now }
    ensures { Limited (plan_listing plan.old fixed atoms (names_in names.now)) out.old out.new result }
{
    let mut next: usize = 0;
    let mut start: u64 = 0;
    let mut count: u64 = 0;
    while next <= Kind::STREAM {
        let found = next_masks(plan, fixed, atoms, start, Walk::BUDGET);
        let NextState::State { set: place, .. } = found else {
            return emit_last(found, count, out, next);
        };
        let set = turned(place, atoms);
        next = emit_state(set, names, out, next);
        start = place + 1;
        count += 1;
    }
    next
}

// The listing, or refusal 9 where it passes the size of an output.
fn show_listing(
    plan: &mut [u64; Plan::WORDS],
    fixed: u64,
    atoms: usize,
    names: &PlacedNames,
    out: &mut [u8],
) -> usize
    requires { ListedMasks plan.old atoms names.now.bytes.now names.now.starts.now }
    ensures { Shown (streamed (plan_listing plan.old fixed atoms (names_in names.now))) out.old out.new result }
{
    let mut scratch = [0u8; Kind::STREAM];
    let size = emit_listing(plan, fixed, atoms, names, &mut scratch);
    if Kind::STREAM < size {
        return show_refused(Refusal::Output, 0, out);
    }
    show(&scratch[0..size], out)
}

// The listing by the rules with these masks, sorted once.
fn show_sorted(
    care: &[u64],
    want: &[u64],
    classes: &[u64; Preference::CLASSES],
    fixed: u64,
    atoms: usize,
    names: &PlacedNames,
    out: &mut [u8],
) -> usize
    requires sortable_masks { SortableMasks care.now want.now }
    requires listed_names { ListedNames atoms names.now.bytes.now names.now.starts.now }
    ensures { SortedListing care.now want.now classes.now fixed atoms (names_in names.now) out.old out.new result }
{
    let mut plan = [0u64; Plan::WORDS];
    fill_tables(care, want, classes, &mut plan);
    show_listing(&mut plan, fixed, atoms, names, out)
}

// The listing of a preference store; its masks are filled once.
fn show_store(rules: &[u16], names: &PlacedNames, out: &mut [u8]) -> usize
    requires { ListedStores rules.now names.now.bytes.now names.now.starts.now }
    ensures { Shown (streamed (whole_listing (decode rules.now) (names_in names.now))) out.old out.new result }
{
    let mut care = [0u64; Preference::RULES];
    let mut want = [0u64; Preference::RULES];
    let mut classes = [0u64; Preference::CLASSES];
    let sizes = fill_masks(rules, &mut care, &mut want, &mut classes);
    let count = sizes.rules;
    let fixed = sizes.fixed;
    let atoms = sizes.atoms;
    show_sorted(
        &care[..count],
        &want[..count],
        &classes,
        fixed,
        atoms,
        names,
        out,
    )
}

// What the lister prints on two stores that are known to be of the form.
pub fn show_states(rules: &[u16], names: &[u8], out: &mut [u8]) -> usize
    requires { StoreOf rules.now (decode rules.now) × ((decode rules.now).kind ≡ KindPreference) × NamesOf names.now KindPreference (decode rules.now).atoms (decode_names (decode rules.now).atoms names.now) }
    ensures { Shown (states_of (decode rules.now) (decode_names (decode rules.now).atoms names.now)) out.old out.new result }
{
    let atoms = rules[1] as usize;
    if Walk::ATOMS < atoms {
        return show_refused(Refusal::TooManyAtoms, 0, out);
    }
    let mut starts = [0u16; Walk::ATOMS];
    place_names(names, &mut starts[..atoms]);
    let placed = PlacedNames {
        bytes: names,
        starts: &starts[..atoms],
    };
    show_store(rules, &placed, out)
}
