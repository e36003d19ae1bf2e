// Why a call is refused, by the layer that refuses it. A fault of a layer below is held whole.
ghost use Rattle.std.specs.Prelude.{◌≡◌};
ghost use Rattle.model.specs.Faults.{kind_number, store_number, engine_number, layer_word};
ghost use Rattle.model.specs.declared.fault.EngineFault.TheVariants.{Kind as InKind, Store as InStore};

// A kind refuses an operation.
#[derive(Clone, Copy, PartialEq, Eq, Debug)]
pub enum KindFault {
    Unknown,
    NotARead,
}

// A store refuses a change.
#[derive(Clone, Copy, PartialEq, Eq, Debug)]
pub enum StoreFault {
    Full,
}

// The engine refuses a call, or passes on what refused it.
#[derive(Clone, Copy, PartialEq, Eq, Debug)]
pub enum EngineFault {
    NumberOutOfRange,
    AlreadyOpen,
    ParentNotOpen,
    TooManyBegins,
    NotOpen,
    OpenChild,
    Waiting,
    NoObject,
    Kind(KindFault),
    Store(StoreFault),
}

// A conversion for each layer, so that `?` passes its faults up.
impl From<KindFault> for EngineFault {
    ghost from_gives = { λ f r. r ≡ InKind f };

    fn from(fault: KindFault) -> EngineFault {
        EngineFault::Kind(fault)
    }
}

impl From<StoreFault> for EngineFault {
    ghost from_gives = { λ f r. r ≡ InStore f };

    fn from(fault: StoreFault) -> EngineFault {
        EngineFault::Store(fault)
    }
}

impl EngineFault {
    // The number by which the fault is told. Not by `From`: `u32::from(fault)` says no plainer which.
    pub fn number(self) -> u32
        ensures { result ≡ engine_number self }
    {
        match self {
            EngineFault::NumberOutOfRange => 1,
            EngineFault::AlreadyOpen => 2,
            EngineFault::ParentNotOpen => 3,
            EngineFault::TooManyBegins => 4,
            EngineFault::NotOpen => 5,
            EngineFault::OpenChild => 6,
            EngineFault::Waiting => 7,
            EngineFault::NoObject => 8,
            EngineFault::Kind(_) => 9,
            EngineFault::Store(_) => 10,
        }
    }

    // The word of the layer that refused.
    // A word and no enum with `Display`: crates above have layers of their own, which an enum here
    // could not hold.
    pub fn layer(self) -> &'static str
        ensures { result.now ≡ layer_word self }
    {
        match self {
            EngineFault::Kind(_) => "KIND",
            EngineFault::Store(_) => "STORE",
            _ => "ENGINE",
        }
    }
}
