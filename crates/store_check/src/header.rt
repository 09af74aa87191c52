// The header of a checked rule store.
ghost use Rattle.std.specs.Prelude.{◌≡◌};
ghost use Rattle.stores.specs.RuleStore.{StoreOf, decode};
ghost use Rattle.stores.specs.StoredRules.{HeaderOf};

use crate::store_forms::word_count;
use kinds::limits::Kind;
use stores::rule_store::Header;

pub fn header_of(words: &[u16], kind: Kind) -> Header
    requires { StoreOf words.now (decode words.now) × ((decode words.now).kind ≡ kind) }
    ensures { HeaderOf (decode words.now) words.now result }
{
    let atoms = words[1] as usize;
    let rules = words[3] as usize;
    let start = 4 + word_count(kind, atoms);
    Header {
        atoms,
        rules,
        start,
    }
}
