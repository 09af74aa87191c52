// What the lines have given, with the made atoms in their place.
ghost use Rattle.std.specs.Prelude.{◌≡◌, length};
ghost use Rattle.kinds.specs.Sizes.{store_words, store_bytes};
ghost use Rattle.lines.specs.Said.{placed};
ghost use Rattle.gathering.specs.Gathered.{state_of, Held};
ghost use Rattle.placing.specs.Unplaced.{Unplaced};

use crate::numbers::{count_unfixed, number_places};
use crate::parts::{place_names, put_classes};
use gathering::gathered::Gathered;
use kinds::limits::{Counts, Kind, Preference};
use remaining_stores::left::put_rules;

// Four words stay kept for the header.
pub fn place_made(
    gathered: Gathered,
    words: &[u16],
    bytes: &[u8],
    rules: &mut [u16],
    names: &mut [u8],
) -> Gathered
    requires held { Held Kind.Preference (state_of Kind.Preference gathered words.now bytes.now) gathered words.now bytes.now × Unplaced (state_of Kind.Preference gathered words.now bytes.now) }
    requires rules_len { (length rules.old ≡ store_words) × (length names.old ≡ store_bytes) }
    ensures { Held Kind.Preference (placed (state_of Kind.Preference gathered words.now bytes.now)) result rules.new names.new }
{
    let Gathered {
        counts: before,
        made,
        bytes: used,
        ..
    } = gathered;
    let atoms = before.atoms;
    let end = 4 + atoms;
    let first = count_unfixed(&words[4..end]);
    let mut numbers = [0u16; Preference::ATOMS];
    number_places(first, atoms, made, &mut numbers);
    let classed = put_classes(&words[4..end], first, made, rules, 4);
    let filled = put_rules(&words[end..], before.rules, &numbers, rules, classed);
    let named = place_names(&bytes[..used], first, made, names);
    let counts = Counts {
        atoms: atoms + made,
        ..before
    };
    Gathered {
        counts,
        made: 0,
        words: filled,
        bytes: named,
        ..gathered
    }
}
