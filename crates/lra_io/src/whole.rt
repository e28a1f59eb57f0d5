// The whole input, up to a limit.
ghost use Rattle.std.specs.Prelude.{◌≡◌, ◌+◌, ◌^◌, ◌<◌};
ghost use Rattle.lra_io.specs.ReadErrors.{ReadsWhole, ReadCause, ReadCalls};
ghost use Rattle.lra_io.specs.declared.whole.ReadError.TheVariants.{Memory};

use crate::{Failed, Source};
use std::alloc::{AllocError, Global};

/// Why an input was not read to its end.
#[derive(Debug, Drop)]
pub enum ReadError {
    /// There are more bytes than the limit; these are the first ones, one more than the limit.
    TooLong(Vec<u8>),

    /// A read failed.
    Failed,

    /// There was no memory for the bytes.
    Memory,
}

impl From<AllocError> for ReadError {
    ghost from_gives = { λ _ e. e ≡ Memory };

    fn from(_: AllocError) -> Self {
        ReadError::Memory
    }
}

/// Reads to the end of the input, or one byte past the limit. A read that fails ends it at once: no read comes after
/// it.
#[tactic(auto, using(crate::proofs::CallSteps::calling))]
pub fn read_whole<S: Source>(
    alloc: Global,
    source: &mut S,
    limit: usize,
) -> Result<Vec<u8>, ReadError>
    requires { limit + 1 < 2 ^ 64 }
    ensures whole { ReadsWhole (S.left source.old) (S.left source.new) limit result }
    ensures cause { ReadCause (S.faults source.old) (S.faults source.new) result }
    ensures calls { ReadCalls S.succeeds S.fails source.old source.new result }
{
    let mut bytes = Vec::new(alloc);
    let mut chunk = [0; 4096];
    'pieces: while bytes.len() <= limit {
        let room = (limit + 1 - bytes.len()).min(chunk.len());
        let count = match source.read(&mut chunk[..room]) {
            Ok(count) => count,
            Err(Failed) => return Err(ReadError::Failed),
        };
        if count == 0 {
            return Ok(bytes);
        }
        bytes.extend_from_slice(&chunk[..count])?;
    }
    Err(ReadError::TooLong(bytes))
}
