// The lines of a preference file's classes: the class words never fall, so each line's atoms are the next run of atoms.
ghost use Rattle.std.specs.Prelude.{◌≡◌, ◌∷◌, ◌-◌, ◌≤◌, length};
ghost use Rattle.rules.specs.Lists.{from};
ghost use Rattle.text.specs.ClassRuns.{ClassWordsOf, up_to};
ghost use Rattle.output.specs.Emitted.{Emitted, InRange};
ghost use Rattle.kinds.specs.Words.{open_bracket, min_word};
ghost use Rattle.text.specs.Items.{atom_line, min_items, class_items};
ghost use Rattle.text.specs.PlacedNames.{names_in};

use crate::atoms::emit_line;
use crate::placed::PlacedNames;
use kinds::limits::ClassWord;

// The first atom from `first` on whose class word is above `word`.
pub fn class_end(words: &[u16], first: usize, word: u16) -> usize
    requires { first ≤ up_to word words.now }
    ensures { result ≡ up_to word words.now }
{
    let within = words[first..].iter().take_while(|own| **own <= word);
    first + within.count()
}

// The `min` line of the atoms from `first` up to `end`.
fn emit_min_line(first: usize, end: usize, names: &PlacedNames, out: &mut [u8], at: usize) -> usize
    requires { (end ≤ length names.now.starts.now) × InRange at (atom_line (names_in names.now) (open_bracket ∷ min_word) (from first (end - first))) }
    ensures { Emitted out.old at (atom_line (names_in names.now) (open_bracket ∷ min_word) (from first (end - first))) out.new result }
{
    emit_line(b"(min", first, end, names, out, at)
}

// The `min` lines, class 1 first.
fn emit_min_lines(
    words: &[u16],
    classes: u16,
    names: &PlacedNames,
    out: &mut [u8],
    at: usize,
) -> usize
    requires { ClassWordsOf (length names.now.starts.now) classes words.now × InRange at (min_items (names_in names.now) words.now 1 classes) }
    ensures { Emitted out.old at (min_items (names_in names.now) words.now 1 classes) out.new result }
{
    let mut next = at;
    let mut first: usize = 0;
    for class in 1..=classes {
        let end = class_end(words, first, class);
        next = emit_min_line(first, end, names, out, next);
        first = end;
    }
    next
}

// The lines of all class words.
pub fn emit_classes(
    words: &[u16],
    classes: u16,
    names: &PlacedNames,
    out: &mut [u8],
    at: usize,
) -> usize
    requires { ClassWordsOf (length names.now.starts.now) classes words.now × InRange at (class_items (names_in names.now) words.now classes) }
    ensures { Emitted out.old at (class_items (names_in names.now) words.now classes) out.new result }
{
    let listed = emit_min_lines(words, classes, names, out, at);
    let vary = class_end(words, 0, classes);
    let fix = class_end(words, vary, ClassWord::VARYING);
    let varied = emit_line(b"(vary", vary, fix, names, out, listed);
    emit_line(b"(fix", fix, words.len(), names, out, varied)
}
