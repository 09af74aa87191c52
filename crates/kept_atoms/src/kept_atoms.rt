// A declaring line whose names are all entered: its counts, and its class words in the scratch.
ghost use Rattle.std.specs.Prelude.{◌≡◌, ◌+◌, ◌^◌, ◌≤◌, ◌<◌};
ghost use Rattle.kinds.specs.Limits.{class_limit};
ghost use Rattle.output.specs.Emitted.{Emitted};
ghost use Rattle.lines.specs.Faults.{stage_after, classes_after, class_words};
ghost use Rattle.lines.specs.Shapes.{word_of};
ghost use Rattle.gathering.specs.Gathered.{KeptNames};

use gathering::gathered::Gathered;
use kinds::limits::{ClassWord, Counts, Kind, Preference};
use kinds::refusals::Refusal;
use lines::forms::Keyword;
use lines::stage::Stage;
use output::words::emit_copies;

fn stage_after(word: Keyword) -> Stage
    ensures { result ≡ stage_after (word_of word) }
{
    match word {
        Keyword::Min => Stage::Declaring,
        Keyword::Vary => Stage::Fixing,
        Keyword::Atoms | Keyword::Fix => Stage::Ruling,
    }
}

fn classes_after(word: Keyword, classes: usize) -> usize
    requires { classes < 2 ^ 62 }
    ensures { result ≡ classes_after (word_of word) classes }
{
    match word {
        Keyword::Min => classes + 1,
        Keyword::Atoms | Keyword::Vary | Keyword::Fix => classes,
    }
}

// The class words of a line's atoms.
fn put_class_words(
    word: Keyword,
    classes: usize,
    count: usize,
    words: &mut [u16],
    at: usize,
) -> usize
    requires { (classes < 65535) × (at + count < 2 ^ 63) }
    ensures { Emitted words.old at (class_words (word_of word) classes count) words.new result }
{
    match word {
        Keyword::Atoms => at,
        Keyword::Min => emit_copies((classes + 1) as u16, count, words, at),
        Keyword::Vary => emit_copies(ClassWord::VARYING, count, words, at),
        Keyword::Fix => emit_copies(ClassWord::FIXED, count, words, at),
    }
}

// A line whose names are all entered.
pub fn keep_names(
    kind: Kind,
    gathered: Gathered,
    word: Keyword,
    count: usize,
    atoms: usize,
    used: usize,
    words: &mut [u16],
) -> Result<Gathered, Refusal>
    requires { (gathered.classes ≤ class_limit) × (gathered.words + count < 2 ^ 63) }
    ensures { KeptNames kind gathered (word_of word) count atoms used words.old words.new result }
{
    let before = gathered.classes;
    let classes = classes_after(word, before);
    let counted = gathered.counts;
    let counts = Counts { atoms, ..counted };
    if !counts.within(kind) {
        return Err(Refusal::Limit);
    }
    if Preference::CLASSES < classes {
        return Err(Refusal::Limit);
    }
    let stage = stage_after(word);
    let end = put_class_words(word, before, count, words, gathered.words);
    Ok(Gathered {
        stage,
        classes,
        counts,
        words: end,
        bytes: used,
        ..gathered
    })
}
