// A name store's bytes with the table of the places of names.
ghost use Rattle.std.proofs.Props.{props};
ghost use Rattle.name_store.specs.NameIndex.{Placed};
ghost use Rattle.text.specs.Items.{stored_names};

// The bytes begin with the names that `starts` has places for.
#[derive(Clone, Copy)]
pub struct PlacedNames<'a> {
    pub bytes: &'a [u8],
    pub starts: &'a [u16],
    ghost placed: { Placed (stored_names bytes.now starts.now) bytes.now starts.now } by { Prim.hlevel props },
}
