#![tactic(auto)]
// Lists the preferred states of the preference file on standard input (document 01).
use kinds::limits::Kind;
use programs::reading::read_full;
use programs::states_text;
use std::io;

// One byte more than a text may have tells that it is too long.
fn main(rt: HostRuntime) -> io::Result<()> {
    let mut text = [0u8; Kind::STREAM + 1];
    let size = read_full(&mut rt.reader(), &mut text)?;
    let mut out = [0u8; Kind::STREAM];
    let shown = states_text(&text[..size], &mut out);
    rt.write_all(&out[..shown])
}
