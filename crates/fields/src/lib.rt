#![tactic(auto)]
// The answers as fields of numbers, for C.
ghost use Rattle.std.specs.Prelude.{◌≡◌};
ghost use Rattle.fields.specs.Fields.{read_fields, written_fields, verdict_fields, next_fields, place_fields, filled_fields, grown_fields};

use answers::{Read, Written};
use rule_index::{Filled, Grown};
use walks::answers::{NextState, Place, Verdict};

// refusal 0: accepted
#[repr(C)]
#[derive(Clone, Copy)]
pub struct ReadFields {
    pub refusal: u64,
    pub line: u64,
    pub words: u64,
    pub bytes: u64,
}

// refusal 0: written
#[repr(C)]
#[derive(Clone, Copy)]
pub struct WrittenFields {
    pub refusal: u64,
    pub bytes: u64,
}

// kind 0: yes, or a state; 1: broken, or none; 2: beaten; 3: spent; 4: refused
#[repr(C)]
#[derive(Clone, Copy)]
pub struct VerdictFields {
    pub kind: u64,
    pub value: u64,
    pub units: u64,
}

// refusal 0: the value
#[repr(C)]
#[derive(Clone, Copy)]
pub struct ValueFields {
    pub refusal: u64,
    pub value: u64,
}

// refusal 0: the words of the store and of its index
#[repr(C)]
#[derive(Clone, Copy)]
pub struct GrownFields {
    pub refusal: u64,
    pub words: u64,
    pub index_words: u64,
}

impl From<Read> for ReadFields {
    ghost from_gives = { λ answer fields. fields ≡ read_fields answer };

    fn from(answer: Read) -> ReadFields {
        match answer {
            Ok(read) => ReadFields {
                refusal: 0,
                line: 0,
                words: read.words as u64,
                bytes: read.bytes as u64,
            },
            Err(refused) => ReadFields {
                refusal: refused.refusal.number(),
                line: refused.line as u64,
                words: 0,
                bytes: 0,
            },
        }
    }
}

impl From<Written> for WrittenFields {
    ghost from_gives = { λ answer fields. fields ≡ written_fields answer };

    fn from(answer: Written) -> WrittenFields {
        match answer {
            Ok(bytes) => WrittenFields {
                refusal: 0,
                bytes: bytes as u64,
            },
            Err(refusal) => WrittenFields {
                refusal: refusal.number(),
                bytes: 0,
            },
        }
    }
}

impl From<Verdict> for VerdictFields {
    ghost from_gives = { λ answer fields. fields ≡ verdict_fields answer };

    fn from(answer: Verdict) -> VerdictFields {
        match answer {
            Verdict::Yes { units } => VerdictFields {
                kind: 0,
                value: 0,
                units,
            },
            Verdict::Broken { rule } => VerdictFields {
                kind: 1,
                value: rule,
                units: 0,
            },
            Verdict::Beaten { set, units } => VerdictFields {
                kind: 2,
                value: set,
                units,
            },
            Verdict::Spent { units } => VerdictFields {
                kind: 3,
                value: 0,
                units,
            },
            Verdict::Refused { refusal } => VerdictFields {
                kind: 4,
                value: refusal.number(),
                units: 0,
            },
        }
    }
}

impl From<NextState> for VerdictFields {
    ghost from_gives = { λ answer fields. fields ≡ next_fields answer };

    fn from(answer: NextState) -> VerdictFields {
        match answer {
            NextState::State { set, units } => VerdictFields {
                kind: 0,
                value: set,
                units,
            },
            NextState::Nothing { units } => VerdictFields {
                kind: 1,
                value: 0,
                units,
            },
            NextState::Spent { units } => VerdictFields {
                kind: 3,
                value: 0,
                units,
            },
            NextState::Refused { refusal } => VerdictFields {
                kind: 4,
                value: refusal.number(),
                units: 0,
            },
        }
    }
}

impl From<Place> for ValueFields {
    ghost from_gives = { λ answer fields. fields ≡ place_fields answer };

    fn from(answer: Place) -> ValueFields {
        match answer {
            Ok(place) => ValueFields {
                refusal: 0,
                value: place,
            },
            Err(refusal) => ValueFields {
                refusal: refusal.number(),
                value: 0,
            },
        }
    }
}

impl From<Filled> for ValueFields {
    ghost from_gives = { λ answer fields. fields ≡ filled_fields answer };

    fn from(answer: Filled) -> ValueFields {
        ValueFields::from(answer.map(|words| words as u64))
    }
}

impl From<Grown> for GrownFields {
    ghost from_gives = { λ answer fields. fields ≡ grown_fields answer };

    fn from(answer: Grown) -> GrownFields {
        match answer {
            Ok(sizes) => GrownFields {
                refusal: 0,
                words: sizes.words as u64,
                index_words: sizes.index_words as u64,
            },
            Err(refusal) => GrownFields {
                refusal: refusal.number(),
                words: 0,
                index_words: 0,
            },
        }
    }
}
