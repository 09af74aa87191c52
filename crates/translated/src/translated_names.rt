// The name store of the translation.
ghost use Rattle.std.specs.Prelude.{◌+◌, ◌-◌, ◌≤◌};
ghost use Rattle.kinds.specs.declared.limits.Kind.TheVariants.{Preference};
ghost use Rattle.rules.specs.Lists.{from};
ghost use Rattle.stores.specs.RuleStore.{decode};
ghost use Rattle.name_store.specs.NameStore.{NamesOf, first_name, decode_names, encode_names};
ghost use Rattle.output.specs.Emitted.{Emitted, InRange};
ghost use Rattle.pairing.specs.Translated.{translated_names};
ghost use Rattle.translated.specs.NameBytes.{FileName, FileNames, dotted_bytes, end_bytes, generated_bytes};
ghost use Rattle.translated.specs.PreferenceStore.{PreferenceStore};
ghost use Rattle.atom_lists.specs.ListWords.{each};

use atom_lists::classes::{count_minimised, count_unfixed};
use output::bytes::emit;

// A letter and a dot before the name at the front of the bytes.
fn dotted_name(letter: u8, bytes: &[u8], out: &mut [u8], at: usize) -> usize
    requires { FileName bytes.now × InRange at (dotted_bytes letter (first_name bytes.now)) }
    ensures { Emitted out.old at (dotted_bytes letter (first_name bytes.now)) out.new result }
{
    let start = [bytes[0] + 2, letter, b'.'];
    let end = 1 + bytes[0] as usize;
    let begun = emit(&start, out, at);
    emit(&bytes[1..end], out, begun)
}

// The same before each of so many names.
fn dotted_names(letter: u8, bytes: &[u8], count: u16, out: &mut [u8], at: usize) -> usize
    requires { FileNames count bytes.now × InRange at (each (dotted_bytes letter) (decode_names count bytes.now)) }
    ensures { Emitted out.old at (each (dotted_bytes letter) (decode_names count bytes.now)) out.new result }
{
    let mut next = at;
    let mut from: usize = 0;
    for _ in 0..count {
        next = dotted_name(letter, &bytes[from..], out, next);
        from += 1 + bytes[from] as usize;
    }
    next
}

// E.j, j being 0 to 16.
fn end_name(j: u8, out: &mut [u8], at: usize) -> usize
    requires { (j ≤ 16) × InRange at (end_bytes j) }
    ensures { Emitted out.old at (end_bytes j) out.new result }
{
    if j < 10 {
        let digit = [3, b'E', b'.', b'0' + j];
        return emit(&digit, out, at);
    }
    let digits = [4, b'E', b'.', b'1', 38 + j];
    emit(&digits, out, at)
}

// E.0 to E.k.
fn end_names(k: u8, out: &mut [u8], at: usize) -> usize
    requires { (k ≤ 16) × InRange at (each end_bytes (from 0 (k + 1 - 0))) }
    ensures { Emitted out.old at (each end_bytes (from 0 (k + 1 - 0))) out.new result }
{
    let mut next = at;
    for j in 0..=k {
        next = end_name(j, out, next);
    }
    next
}

// All N., S. of the unfixed, D. of the minimised, which are the first ones, E.0 to E.k, U.
fn generated_names(
    names: &[u8],
    atoms: u16,
    unfixed: u16,
    minimised: u16,
    k: u8,
    out: &mut [u8],
    at: usize,
) -> usize
    requires { FileNames atoms names.now × FileNames unfixed names.now × FileNames minimised names.now × (k ≤ 16) × InRange at (generated_bytes names.now atoms unfixed minimised k) }
    ensures { Emitted out.old at (generated_bytes names.now atoms unfixed minimised k) out.new result }
{
    let negated = dotted_names(b'N', names, atoms, out, at);
    let copied = dotted_names(b'S', names, unfixed, out, negated);
    let differed = dotted_names(b'D', names, minimised, out, copied);
    let ended = end_names(k, out, differed);
    emit(b"\x01U", out, ended)
}

// The names of the file, then the generated ones.
pub fn translate_names(store: &[u16], names: &[u8], out: &mut [u8]) -> usize
    requires { PreferenceStore store.now × NamesOf names.now Preference (decode store.now).atoms (decode_names (decode store.now).atoms names.now) }
    ensures { Emitted out.old 0 (encode_names (translated_names (decode store.now) (decode_names (decode store.now).atoms names.now))) out.new result }
{
    let atoms = store[1];
    let k = store[2] as u8;
    let start = 4 + atoms as usize;
    let classes = &store[4..start];
    let minimised = count_minimised(classes);
    let unfixed = count_unfixed(classes);
    let copied = emit(names, out, 0);
    generated_names(names, atoms, unfixed, minimised, k, out, copied)
}
