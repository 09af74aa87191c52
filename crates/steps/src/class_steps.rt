// Step 5, which goes by classes.
ghost use Rattle.std.specs.Prelude.{◌+◌, ◌-◌, ◌≤◌, length};
ghost use Rattle.rules.specs.Lists.{from};
ghost use Rattle.stores.specs.Program.{NeverFalling};
ghost use Rattle.output.specs.Emitted.{Emitted, InRange};
ghost use Rattle.steps.specs.Offsets.{Small};
ghost use Rattle.atom_lists.specs.Roles.{Low};
ghost use Rattle.atom_lists.specs.ListWords.{each};
ghost use Rattle.steps.specs.StepWords.{words5, run_words5};

use crate::offsets::Offsets;
use atom_lists::words::emit_run;
use output::words::emit;
use text::classes::class_end;

// The D. of the atoms of a class, which are those from `first` up to `end`, E.i or U, if E.(i-1).
fn step5_class(first: u16, end: u16, class: u16, o: Offsets, out: &mut [u16], at: usize) -> usize
    requires { (first ≤ end) × (end ≤ 256) × (1 ≤ class) × (class ≤ 16) × Small o × InRange at (run_words5 o class first end) }
    ensures { Emitted out.old at (run_words5 o class first end) out.new result }
{
    let counts = [end - first + 2, 1, 0];
    let ends = [o.e + class, o.u, o.e + (class - 1)];
    let counted = emit(&counts, out, at);
    let listed = emit_run(o.d + first, o.d + end, out, counted);
    emit(&ends, out, listed)
}

pub fn step5(classes: &[u16], count: u16, o: Offsets, out: &mut [u16], at: usize) -> usize
    requires { (length classes.now ≤ 256) × Low classes.now × NeverFalling 0 classes.now × (count ≤ 16) × Small o × InRange at (each (words5 classes.now o) (from 1 (count + 1 - 1))) }
    ensures { Emitted out.old at (each (words5 classes.now o) (from 1 (count + 1 - 1))) out.new result }
{
    let mut next = at;
    let mut first: u16 = 0;
    for class in 1..=count {
        let end = class_end(classes, first as usize, class) as u16;
        next = step5_class(first, end, class, o, out, next);
        first = end;
    }
    next
}
