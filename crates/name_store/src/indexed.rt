// A name store's bytes with the index over them.
ghost use Rattle.std.specs.Prelude.{length};
ghost use Rattle.std.proofs.Props.{props};
ghost use Rattle.rules.specs.Lists.{Distinct-prop};
ghost use Rattle.name_store.specs.NameStore.{decode_names};
ghost use Rattle.name_store.specs.NameIndex.{Indexed};

// The first names of the bytes are indexed, as many as `starts` has places for.
#[derive(Clone, Copy)]
pub struct NameIndex<'a> {
    pub bytes: &'a [u8],
    pub starts: &'a [u16],
    pub firsts: &'a [u16],
    pub links: &'a [u16],
    ghost indexed: { Indexed (decode_names (length starts.now) bytes.now) bytes.now starts.now firsts.now links.now } by { Prim.hlevel (Distinct-prop, props) },
}
