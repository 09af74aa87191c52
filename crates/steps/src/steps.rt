// The steps that go by atoms, and those of one or two rules: 1, 4 and 6 to 10.
ghost use Rattle.std.specs.Prelude.{◌-◌, ◌≤◌, length};
ghost use Rattle.rules.specs.Lists.{from};
ghost use Rattle.output.specs.Emitted.{Emitted, InRange};
ghost use Rattle.steps.specs.Offsets.{Small};
ghost use Rattle.atom_lists.specs.Roles.{FirstMinimised};
ghost use Rattle.atom_lists.specs.ListWords.{each};
ghost use Rattle.steps.specs.StepWords.{words1, words4, class_words6, words6, words789, words10};

use crate::offsets::Offsets;
use atom_lists::classes::class_of;
use output::words::emit;

// a if not N.a, unless a is minimised; N.a if not a.
fn step1_atom(a: u16, minimised: u16, n: u16, out: &mut [u16], at: usize) -> usize
    requires { (a ≤ 256) × (n ≤ 256) × InRange at (words1 minimised n a) }
    ensures { Emitted out.old at (words1 minimised n a) out.new result }
{
    if a < minimised {
        let second = [1, 0, 1, n + a, a];
        return emit(&second, out, at);
    }
    let both = [1, 0, 1, a, n + a, 1, 0, 1, n + a, a];
    emit(&both, out, at)
}

pub fn step1(minimised: u16, n: u16, out: &mut [u16], at: usize) -> usize
    requires { (n ≤ 256) × InRange at (each (words1 minimised n) (from 0 (n - 0))) }
    ensures { Emitted out.old at (each (words1 minimised n) (from 0 (n - 0))) out.new result }
{
    let mut next = at;
    for a in 0..n {
        next = step1_atom(a, minimised, n, out, next);
    }
    next
}

// E.0 or U.
pub fn step4(e: u16, u: u16, out: &mut [u16], at: usize) -> usize
    requires { InRange at (words4 e u) }
    ensures { Emitted out.old at (words4 e u) out.new result }
{
    let words = [2, 0, 0, e, u];
    emit(&words, out, at)
}

// U if D.a, not a; U if D.a and S.a; U if E.(i-1) and S.a, not a; S.a or U if E.i, not N.a.
fn step6_atom(a: u16, class: u16, o: Offsets, out: &mut [u16], at: usize) -> usize
    requires { (a ≤ 256) × (1 ≤ class) × (class ≤ 16) × Small o × InRange at (class_words6 o class a) }
    ensures { Emitted out.old at (class_words6 o class a) out.new result }
{
    let first = [1, 1, 1, o.u, o.d + a, a];
    let second = [1, 2, 0, o.u, o.d + a, o.s + a];
    let third = [1, 2, 1, o.u, o.e + (class - 1), o.s + a, a];
    let fourth = [2, 1, 1, o.s + a, o.u, o.e + class, o.n + a];
    let one = emit(&first, out, at);
    let two = emit(&second, out, one);
    let three = emit(&third, out, two);
    emit(&fourth, out, three)
}

pub fn step6(classes: &[u16], minimised: u16, o: Offsets, out: &mut [u16], at: usize) -> usize
    requires { (length classes.now ≤ 256) × FirstMinimised minimised classes.now × Small o × InRange at (each (words6 classes.now o) (from 0 (minimised - 0))) }
    ensures { Emitted out.old at (each (words6 classes.now o) (from 0 (minimised - 0))) out.new result }
{
    let mut next = at;
    for a in 0..minimised {
        let class = class_of(classes, a);
        next = step6_atom(a, class, o, out, next);
    }
    next
}

// The atom with number b if U.
fn step789_atom(b: u16, u: u16, out: &mut [u16], at: usize) -> usize
    requires { InRange at (words789 u b) }
    ensures { Emitted out.old at (words789 u b) out.new result }
{
    let words = [1, 1, 0, b, u];
    emit(&words, out, at)
}

// Step 7, 8 or 9: the atoms of a run.
pub fn step789(first: u16, end: u16, u: u16, out: &mut [u16], at: usize) -> usize
    requires { InRange at (each (words789 u) (from first (end - first))) }
    ensures { Emitted out.old at (each (words789 u) (from first (end - first))) out.new result }
{
    let mut next = at;
    for b in first..end {
        next = step789_atom(b, u, out, next);
    }
    next
}

// U if E.k; then no head, not U.
pub fn step10(e: u16, u: u16, classes: u16, out: &mut [u16], at: usize) -> usize
    requires { (e ≤ 1100) × (classes ≤ 16) × InRange at (words10 e u classes) }
    ensures { Emitted out.old at (words10 e u classes) out.new result }
{
    let words = [1, 1, 0, u, e + classes, 0, 0, 1, u];
    emit(&words, out, at)
}
