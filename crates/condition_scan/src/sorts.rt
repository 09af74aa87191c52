// What a word is in a condition.
ghost use Rattle.std.specs.Prelude.{◌≡◌};
ghost use Rattle.lines.specs.Conditions.{sort_of};
ghost use Rattle.condition_scan.specs.Sorts.{word_sort};

use name_store::index::same_bytes;

#[derive(Clone, Copy)]
pub enum Sort {
    Not,
    And,
    Or,
    Name,
}

pub fn sort_of(word: &[u8]) -> Sort
    ensures { word_sort result ≡ sort_of word.now }
{
    if same_bytes(word, b"not") {
        return Sort::Not;
    }
    if same_bytes(word, b"and") {
        return Sort::And;
    }
    if same_bytes(word, b"or") {
        return Sort::Or;
    }
    Sort::Name
}
