use crate::token::Place;
use std::alloc::{AllocError, AllocFailed};
use thiserror::Error;

/// Why a file can't be read, with the first byte where that stands: its offset in bytes, and its place.
#[derive(Clone, Copy, Debug, PartialEq, Eq, Error)]
pub enum LexStop {
    /// 1: a byte that may not stand there.
    #[error("byte {at} may not stand in C")]
    BadByte { at: u32, place: Place },
    /// 2: no token, white space, comment or line marker begins here.
    #[error("no token begins at byte {at}")]
    BadToken { at: u32, place: Place },
    /// 3: an integer constant from 2^64 on.
    #[error("the constant at byte {at} has more than 64 bits")]
    LiteralTooWide { at: u32, place: Place },
    #[error("out of memory")]
    Memory,
}

impl From<AllocError> for LexStop {
    ghost use Rattle.std.specs.Prelude.{◌≡◌};
    ghost use Rattle.c_lex.specs.declared.error.LexStop.TheVariants.{Memory};

    ghost from_gives = { λ _ e. e ≡ Memory };

    fn from(_: AllocError) -> LexStop {
        LexStop::Memory
    }
}

impl<T: Drop> From<AllocFailed<T>> for LexStop {
    ghost use Rattle.std.specs.Prelude.{◌≡◌};
    ghost use Rattle.c_lex.specs.declared.error.LexStop.TheVariants.{Memory};

    ghost from_gives = { λ _ e. e ≡ Memory };

    fn from(_: AllocFailed<T>) -> LexStop {
        LexStop::Memory
    }
}
