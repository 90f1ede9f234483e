use std::alloc::{AllocError, AllocFailed};
use thiserror::Error;

/// Why a list of tokens is no file of the grammar, with the first token where that stands: its index, which is the
/// length of the list at the end.
#[derive(Clone, Copy, Debug, PartialEq, Eq, Error)]
pub enum SyntaxStop {
    /// 1: no tree begins with the tokens up to and with this one.
    #[error("token {at} may not stand there")]
    Syntax { at: u32 },
    /// 2: some trees begin with the tokens up to and with this one, and each has a node of depth 201 that begins there.
    #[error("token {at} is nested too deep")]
    TooDeep { at: u32 },
    /// 3: the token begins a construct that is left out.
    #[error("token {at} begins a construct that is left out")]
    OutOfProfile { at: u32 },
    #[error("out of memory")]
    Memory,
}

impl From<AllocError> for SyntaxStop {
    ghost use Rattle.std.specs.Prelude.{◌≡◌};
    ghost use Rattle.c_input.specs.declared.error.SyntaxStop.TheVariants.{Memory};

    ghost from_gives = { λ _ e. e ≡ Memory };

    fn from(_: AllocError) -> SyntaxStop {
        SyntaxStop::Memory
    }
}

impl<T: Drop> From<AllocFailed<T>> for SyntaxStop {
    ghost use Rattle.std.specs.Prelude.{◌≡◌};
    ghost use Rattle.c_input.specs.declared.error.SyntaxStop.TheVariants.{Memory};

    ghost from_gives = { λ _ e. e ≡ Memory };

    fn from(_: AllocFailed<T>) -> SyntaxStop {
        SyntaxStop::Memory
    }
}
