// The bytes of a text or of a name store.
ghost use Rattle.std.specs.Prelude.{◌≡◌, ◌+◌, ◌≤◌, length};
ghost use Rattle.output.specs.Emitted.{Emitted, InRange};

use crate::elements::copy;
pub use crate::elements::{emit, push};

// The first, the middle and the last, which may be the same: a branch on their number would often be mispredicted.
fn copy_few(bytes: &[u8], part: &mut [u8])
    requires { (length part.old ≡ length bytes.now) × (length bytes.now ≤ 3) }
    ensures { part.new ≡ bytes.now }
{
    if bytes.len() == 0 {
        return;
    }
    let middle = bytes.len() / 2;
    let last = bytes.len() - 1;
    part[0] = bytes[0];
    part[middle] = bytes[middle];
    part[last] = bytes[last];
}

// The first N and the last N, which may have bytes in common: each of them is a few wide loads and stores.
fn copy_ends<const N: usize>(bytes: &[u8], part: &mut [u8])
    requires { (length part.old ≡ length bytes.now) × (N ≤ length bytes.now) × (length bytes.now ≤ N + N) }
    ensures { part.new ≡ bytes.now }
{
    let last = bytes.len() - N;
    part[..N].copy_from_slice(&bytes[..N]);
    part[last..].copy_from_slice(&bytes[last..]);
}

fn copy_name(bytes: &[u8], part: &mut [u8])
    requires { length part.old ≡ length bytes.now }
    ensures { part.new ≡ bytes.now }
{
    match bytes.len() {
        0..=3 => copy_few(bytes, part),
        4..=7 => copy_ends::<4>(bytes, part),
        8..=16 => copy_ends::<8>(bytes, part),
        17..=32 => copy_ends::<16>(bytes, part),
        _ => copy(bytes, part),
    }
}

// For names, whose lengths the compiler does not know.
pub fn emit_name(bytes: &[u8], out: &mut [u8], at: usize) -> usize
    requires { InRange at bytes.now }
    ensures { Emitted out.old at bytes.now out.new result }
{
    let end = at + bytes.len();
    if end <= out.len() {
        copy_name(bytes, &mut out[at..end]);
        return end;
    }
    emit(bytes, out, at)
}
