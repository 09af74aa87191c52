#![tactic(auto)]
// The two programs over slices: a text in, what is printed out (document 01, "Sheets of known states"). Neither asks anything of its caller.
pub mod reading;
pub mod texts;

ghost use Rattle.std.specs.Prelude.{◌≡◌, length};
ghost use Rattle.rules.specs.Lists.{over};
ghost use Rattle.answers.specs.Printed.{shown};
ghost use Rattle.answers.specs.Programs.{translate_printed, states_printed};

use crate::texts::print_text;

// What the translator prints on a text; nothing where the output has no room for it.
pub fn translate_text(text: &[u8], out: &mut [u8]) -> usize
    ensures size { result ≡ length (shown (translate_printed text.now) out.old) }
    ensures output { out.new ≡ over (shown (translate_printed text.now) out.old) out.old }
{
    print_text(false, text, out)
}

// What the lister prints on a text; nothing where the output has no room for it.
pub fn states_text(text: &[u8], out: &mut [u8]) -> usize
    ensures size { result ≡ length (shown (states_printed text.now) out.old) }
    ensures output { out.new ≡ over (shown (states_printed text.now) out.old) out.old }
{
    print_text(true, text, out)
}
