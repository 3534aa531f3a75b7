//! Why tokens spell no script.

use thiserror::Error;

/// Why the tokens of a script spell none. Places are those of bytes in the script, from 0.
#[derive(Clone, Copy, Debug, Drop, Error)]
pub enum SyntaxRefused {
    /// The first token with which the tokens begin no script, or the script's length where they end too early.
    #[error("unexpected at {place}")]
    Unexpected { place: u32 },
    /// The token that opens a level past the 64th.
    #[error("too deep at {place}")]
    TooDeep { place: u32 },
    /// The token that begins a part past a limit.
    #[error("too many at {place}")]
    TooMany { place: u32 },
    #[error("out of memory")]
    NoMemory,
}
