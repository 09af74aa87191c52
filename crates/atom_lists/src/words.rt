// A run of numbers.
ghost use Rattle.std.specs.Prelude.{◌-◌};
ghost use Rattle.rules.specs.Lists.{from};
ghost use Rattle.output.specs.Emitted.{Emitted, InRange};
ghost use Rattle.atom_lists.specs.ListWords.{each, single};

use output::words::push;

// The numbers from `first` up to `end`.
pub fn emit_run(first: u16, end: u16, out: &mut [u16], at: usize) -> usize
    requires { InRange at (each single (from first (end - first))) }
    ensures { Emitted out.old at (each single (from first (end - first))) out.new result }
{
    let mut next = at;
    for word in first..end {
        next = push(word, out, next);
    }
    next
}
