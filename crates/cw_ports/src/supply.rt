// How an input stands.
ghost use Rattle.std.specs.Prelude.{◌≡◌};
ghost use Rattle.cw_ports.specs.Supplies.{is_open, is_too_long};

/// Whether bytes may be asked for: not after a fault, nor where the input has too many.
#[derive(Clone, Copy, Debug, PartialEq, Eq)]
pub(crate) enum Supply {
    Open,
    Faulty,
    TooLong,
}

impl Supply {
    pub(crate) fn is_open(self) -> bool
        ensures { result ≡ is_open self }
    {
        match self {
            Supply::Open => true,
            _ => false,
        }
    }

    pub(crate) fn is_too_long(self) -> bool
        ensures { result ≡ is_too_long self }
    {
        match self {
            Supply::TooLong => true,
            _ => false,
        }
    }
}
