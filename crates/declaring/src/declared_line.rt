// A line that declares atoms, against what the lines before have given.
ghost use Rattle.std.specs.Prelude.{◌≡◌, ◌≤◌, false, ◌||◌, [], length, drop};
ghost use Rattle.kinds.specs.Limits.{text_limit};
ghost use Rattle.rules.specs.Lists.{some};
ghost use Rattle.name_store.specs.NameStore.{decode_names, among};
ghost use Rattle.name_store.specs.NameIndex.{Indexed, buckets};
ghost use Rattle.lines.specs.Tokens.{items};
ghost use Rattle.lines.specs.Forms.{form_of};
ghost use Rattle.lines.specs.Faults.{expects, is_ruling, twice};
ghost use Rattle.lines.specs.Shapes.{word_of, Declared};
ghost use Rattle.numbering.specs.Entries.{Room, Short};
ghost use Rattle.gathering.specs.Gathered.{state_of, Held, HeldIndex, LineIs, past_refusal};

use gathering::gathered::Gathered;
use kept_atoms::kept_atoms::keep_names;
use kinds::limits::Kind;
use kinds::refusals::Refusal;
use lines::forms;
use lines::forms::{DeclaredShape, Keyword, Shape};
use lines::stage::Stage;
use name_store::indexed::NameIndex;
use numbering::entries;
use numbering::entries::Unentered;

fn is_expected(kind: Kind, stage: Stage, word: Keyword) -> bool
    ensures { result ≡ expects kind stage (word_of word) }
{
    matches!(
        (kind, stage, word),
        (Kind::Plain, Stage::Declaring, Keyword::Atoms)
            | (
                Kind::Preference,
                Stage::Declaring,
                Keyword::Min | Keyword::Vary
            )
            | (Kind::Preference, Stage::Fixing, Keyword::Fix)
    )
}

// The refusal of a line with more names than there is room for: a name that stands twice comes before the count.
fn past_limit(
    line: &[u8],
    at: usize,
    bytes: &mut [u8],
    starts: &mut [u16],
    firsts: &mut [u16],
    links: &mut [u16],
) -> Refusal
    requires at_in_bounds { (at ≤ length line.now) × Short (items (drop at line.now)) }
    requires room { Room bytes.old starts.old links.old × (buckets ≤ length firsts.old) }
    requires indexed { Indexed (decode_names (length starts.old) bytes.old) bytes.old starts.old firsts.old links.old }
    ensures { result ≡ past_refusal (some (among (decode_names (length starts.old) bytes.old)) (items (drop at line.now)) || twice [] (items (drop at line.now))) }
{
    let names = NameIndex {
        bytes,
        starts,
        firsts,
        links,
    };
    if entries::any_known(line, at, &names)
        || entries::any_twice(line, at, bytes, starts, firsts, links)
    {
        return Refusal::DeclaredTwice;
    }
    Refusal::Limit
}

// A line of the form that declares atoms, its names at the place that the form gives.
fn declare_atoms(
    line: &[u8],
    kind: Kind,
    gathered: Gathered,
    shape: DeclaredShape,
    words: &mut [u16],
    bytes: &mut [u8],
    starts: &mut [u16],
    firsts: &mut [u16],
    links: &mut [u16],
) -> Result<Gathered, Refusal>
    requires declared { Declared kind line.now (form_of line.now) shape }
    requires line_len_bound { length line.now ≤ text_limit }
    requires held { Held kind (state_of kind gathered words.old bytes.old) gathered words.old bytes.old }
    requires held_index { HeldIndex gathered bytes.old starts.old firsts.old links.old }
    ensures { LineIs kind (state_of kind gathered words.old bytes.old) (form_of line.now) words.new bytes.new starts.new firsts.new links.new result }
{
    let word = shape.word;
    if !is_expected(kind, gathered.stage, word) {
        return Err(Refusal::BrokenForm);
    }
    if shape.refused {
        return Err(Refusal::Name);
    }
    let before = gathered.counts.atoms;
    match entries::enter_names(
        line,
        shape.from,
        bytes,
        starts,
        firsts,
        links,
        before,
        gathered.bytes,
    ) {
        Ok(entered) => keep_names(
            kind,
            gathered,
            word,
            shape.count,
            entered.atoms,
            entered.bytes,
            words,
        ),
        Err(unentered) => Err(match unentered {
            Unentered::Full { at } => past_limit(line, at, bytes, starts, firsts, links),
            Unentered::Twice => Refusal::DeclaredTwice,
        }),
    }
}

// A line before the rules.
pub fn read_declared(
    line: &[u8],
    kind: Kind,
    gathered: Gathered,
    words: &mut [u16],
    bytes: &mut [u8],
    starts: &mut [u16],
    firsts: &mut [u16],
    links: &mut [u16],
) -> Result<Gathered, Refusal>
    requires line_len_bound { (length line.now ≤ text_limit) × (is_ruling gathered.stage ≡ false) }
    requires held { Held kind (state_of kind gathered words.old bytes.old) gathered words.old bytes.old }
    requires held_index { HeldIndex gathered bytes.old starts.old firsts.old links.old }
    ensures { LineIs kind (state_of kind gathered words.old bytes.old) (form_of line.now) words.new bytes.new starts.new firsts.new links.new result }
{
    match forms::shape_of(line, kind) {
        Shape::Blank => Ok(gathered),
        Shape::Declares(shape) => declare_atoms(
            line, kind, gathered, shape, words, bytes, starts, firsts, links,
        ),
        Shape::Rule { .. } | Shape::Other => Err(Refusal::BrokenForm),
    }
}
