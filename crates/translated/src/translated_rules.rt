// The rule store of the translation.
ghost use Rattle.std.specs.Prelude.{◌≤◌};
ghost use Rattle.stores.specs.RuleStore.{decode, rules_from, encode};
ghost use Rattle.output.specs.Emitted.{Emitted, InRange};
ghost use Rattle.pairing.specs.Translated.{translated};
ghost use Rattle.steps.specs.Offsets.{Small, FileFits, ClassesFit};
ghost use Rattle.steps.specs.StepWords.{file_words, class_words, last_words, step_words};
ghost use Rattle.translated.specs.PreferenceStore.{PreferenceStore};

use atom_lists::classes::{count_minimised, count_unfixed};
use output::words::emit;
use rule_steps::rule_steps::{step2, step3};
use steps::class_steps::step5;
use steps::offsets::{Offsets, numbered};
use steps::steps::{step1, step4, step6, step10, step789};

// A local names the step that writes on from its place.
fn steps_1_to_3(
    rules: &[u16],
    count: u16,
    minimised: u16,
    unfixed: u16,
    o: Offsets,
    out: &mut [u16],
    at: usize,
) -> usize
    requires { FileFits rules.now count o × InRange at (file_words (rules_from count rules.now) minimised unfixed o) }
    ensures { Emitted out.old at (file_words (rules_from count rules.now) minimised unfixed o) out.new result }
{
    let second = step1(minimised, o.n, out, at);
    let third = step2(rules, count, minimised, o.n, out, second);
    step3(rules, count, unfixed, o, out, third)
}

fn steps_4_to_6(
    classes: &[u16],
    k: u16,
    minimised: u16,
    o: Offsets,
    out: &mut [u16],
    at: usize,
) -> usize
    requires { ClassesFit classes.now k minimised o × InRange at (class_words classes.now k minimised o) }
    ensures { Emitted out.old at (class_words classes.now k minimised o) out.new result }
{
    let fifth = step4(o.e, o.u, out, at);
    let sixth = step5(classes, k, o, out, fifth);
    step6(classes, minimised, o, out, sixth)
}

fn steps_7_to_10(k: u16, o: Offsets, out: &mut [u16], at: usize) -> usize
    requires { (k ≤ 16) × Small o × InRange at (last_words k o) }
    ensures { Emitted out.old at (last_words k o) out.new result }
{
    let eighth = step789(o.s, o.d, o.u, out, at);
    let ninth = step789(o.d, o.e, o.u, out, eighth);
    let tenth = step789(o.e, o.u, o.u, out, ninth);
    step10(o.e, o.u, k, out, tenth)
}

// The rules of all steps.
fn emit_steps(
    classes: &[u16],
    rules: &[u16],
    count: u16,
    k: u16,
    minimised: u16,
    unfixed: u16,
    o: Offsets,
    out: &mut [u16],
    at: usize,
) -> usize
    requires { FileFits rules.now count o × ClassesFit classes.now k minimised o × InRange at (step_words classes.now (rules_from count rules.now) k minimised unfixed o) }
    ensures { Emitted out.old at (step_words classes.now (rules_from count rules.now) k minimised unfixed o) out.new result }
{
    let fourth = steps_1_to_3(rules, count, minimised, unfixed, o, out, at);
    let seventh = steps_4_to_6(classes, k, minimised, o, out, fourth);
    steps_7_to_10(k, o, out, seventh)
}

// The store of the ten steps: its header, and the rules of all steps.
pub fn translate_rules(store: &[u16], out: &mut [u16]) -> usize
    requires { PreferenceStore store.now }
    ensures { Emitted out.old 0 (encode (translated (decode store.now))) out.new result }
{
    let atoms = store[1];
    let k = store[2];
    let count = store[3];
    let start = 4 + atoms as usize;
    let classes = &store[4..start];
    let minimised = count_minimised(classes);
    let unfixed = count_unfixed(classes);
    let o = numbered(atoms, k, minimised, unfixed);
    let header = [
        0,
        o.u + 1,
        0,
        2 * atoms + unfixed + 2 * count + 4 * minimised + 2 * k + 4,
    ];
    let headed = emit(&header, out, 0);
    emit_steps(
        classes,
        &store[start..],
        count,
        k,
        minimised,
        unfixed,
        o,
        out,
        headed,
    )
}
