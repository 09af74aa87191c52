#![tactic(auto)]
// Runs the two programs' functions on each file of data/: every refusal that a file can meet is seen printed.
use kinds::limits::Kind;
use programs::reading::read_full;
use programs::{states_text, translate_text};
use std::fs::File;
use std::io;
use std::rt::{Files, Runtime};

// What the lister prints on a file, or the translator.
fn print(rt: &(impl Files + Print + Eprint), path: &str, listed: bool) -> io::Result<()> {
    println!(rt; "{path}")?;
    let mut file = match File::open(rt, path) {
        Ok(file) => file,
        Err(error) => return eprintln!(rt; "{path}: {error}"),
    };
    let mut text = [0u8; Kind::STREAM + 1];
    let size = read_full(&mut file, &mut text)?;
    let mut out = [0u8; Kind::STREAM];
    let shown = if listed {
        states_text(&text[..size], &mut out)
    } else {
        translate_text(&text[..size], &mut out)
    };
    rt.write_all(&out[..shown])
}

fn states(rt: &impl Runtime, path: &str) -> io::Result<()> {
    print(rt, path, true)
}

fn translation(rt: &impl Runtime, path: &str) -> io::Result<()> {
    print(rt, path, false)
}

fn first_states(rt: &impl Runtime) -> io::Result<()> {
    states(rt, "inverters.pref")?;
    states(rt, "catalogue.pref")?;
    states(rt, "no_state.pref")?;
    states(rt, "too_long.pref")?;
    states(rt, "two_forms.pref")?;
    states(rt, "missing_line.pref")?;
    states(rt, "generated_name.pref")?;
    states(rt, "long_name.pref")?;
    states(rt, "declared_twice.pref")
}

fn other_states(rt: &impl Runtime) -> io::Result<()> {
    states(rt, "undeclared.pref")?;
    states(rt, "twice_in_list.pref")?;
    states(rt, "classes.pref")?;
    states(rt, "filled_not.pref")?;
    states(rt, "many_states.pref")?;
    states(rt, "plain.plain")?;
    states(rt, "atoms_61.pref")?;
    states(rt, "unused.pref")?;
    states(rt, "hand_typed.pref")
}

fn condition_states(rt: &impl Runtime) -> io::Result<()> {
    states(rt, "conditions.pref")?;
    states(rt, "broken_condition.pref")?;
    states(rt, "deep_brackets.pref")?;
    states(rt, "made_declared.pref")?;
    states(rt, "made_undeclared.pref")
}

fn translations(rt: &impl Runtime) -> io::Result<()> {
    translation(rt, "no_state.pref")?;
    translation(rt, "too_long.pref")?;
    translation(rt, "declared_twice.pref")?;
    translation(rt, "filled_not.pref")?;
    translation(rt, "plain.plain")?;
    translation(rt, "long_translation.pref")?;
    translation(rt, "conditions.pref")
}

fn main(rt: HostRuntime) -> io::Result<()> {
    first_states(&rt)?;
    other_states(&rt)?;
    condition_states(&rt)?;
    translations(&rt)
}
