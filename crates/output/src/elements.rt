// Elements from a place of the output on.
ghost use Rattle.std.specs.Prelude.{◌≡◌, [], ◌∷◌, ◌+◌, ◌^◌, ◌<◌, length, replicate};
ghost use Rattle.output.specs.Emitted.{Emitted, InRange};

pub fn push<T: Copy>(x: T, out: &mut [T], at: usize) -> usize
    requires { InRange at (x ∷ []) }
    ensures { Emitted out.old at (x ∷ []) out.new result }
{
    if at < out.len() {
        out[at] = x;
    }
    at + 1
}

// To a part of the output that has as many. Item by item: the library's copy would want `memmove` of who links the archive.
pub fn copy<T: Copy>(items: &[T], part: &mut [T])
    requires { length part.old ≡ length items.now }
    ensures { part.new ≡ items.now }
{
    for i in 0..items.len() {
        part[i] = items[i];
    }
}

// Where all have room they are one copy: of items whose number the compiler knows it makes a few wide stores.
pub fn emit<T: Copy>(items: &[T], out: &mut [T], at: usize) -> usize
    requires { InRange at items.now }
    ensures { Emitted out.old at items.now out.new result }
{
    let end = at + items.len();
    if end <= out.len() {
        copy(items, &mut out[at..end]);
    } else if at < out.len() {
        let room = out.len() - at;
        copy(&items[..room], &mut out[at..]);
    }
    end
}

// An item so many times.
pub fn emit_copies<T: Copy>(x: T, count: usize, out: &mut [T], at: usize) -> usize
    requires { at + count < 2 ^ 63 }
    ensures { Emitted out.old at (replicate count x) out.new result }
{
    let mut next = at;
    for _ in 0..count {
        next = push(x, out, next);
    }
    next
}
