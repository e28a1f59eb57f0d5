// Where bytes go.
ghost use Rattle.std.specs.Prelude.{◌≡◌, ℕ, ◌+◌, ◌≤◌, ◌<◌, List, length, IfOk, IsOk, OnOk, OnErr, Option};
ghost use Rattle.std.specs.{Io.WritesAtMost, Io.KnownBytes.Appends, Io.KnownBytes.WriteAppends};
ghost use Rattle.lra_io.specs.{Calls.Calls, Calls.StopsAtFault, Causes.AppendsPart, Causes.HasCause};

use crate::Failed;

/// A stream of bytes that are written in pieces.
pub trait Sink {
    /// The bytes accepted, if the sink reports them.
    ghost held: { Self → Option (List ℕ) };

    /// How often a write failed; it stays at 2^64 - 1 once it is there.
    ghost faults: { Self → ℕ };

    /// The states before and after a write that succeeds.
    ghost succeeds: { Self → Self → Type 0 };

    /// The states before and after a write that fails.
    ghost fails: { Self → Self → Type 0 };

    /// How many more bytes it is sure to take; 0 if it promises nothing.
    ghost spare: { Self → ℕ };

    /// Takes the first bytes of the piece, and says how many: at least one, if the piece has any.
    ///
    /// A write that fails takes no byte.
    fn write(&mut self, piece: &[u8]) -> Result<usize, Failed>
        ensures bound { WritesAtMost result piece.now }
        ensures some { IfOk result (λ count. 0 < length piece.now → 0 < count) }
        ensures bytes { WriteAppends (held self.old) (held self.new) result piece.now }
        ensures cause { HasCause (faults self.old) (faults self.new) result }
        ensures success { OnOk result (succeeds self.old self.new) }
        ensures fault { OnErr result (fails self.old self.new) }

        ensures sure { 0 < spare self.old → IsOk result }
        ensures spare { IfOk result (λ count. spare self.old ≤ spare self.new + count) };
}

/// Writes all bytes, or only the first of them up to a write that fails, which is the last one. Takes no memory.
#[tactic(auto, using(crate::proofs::Bytes::appends_more, crate::proofs::CallSteps::calling))]
pub fn write_whole<K: Sink>(sink: &mut K, bytes: &[u8]) -> Result<(), Failed>
    ensures ok { OnOk result (Appends (K.held sink.old) (K.held sink.new) bytes.now) }
    ensures failed { OnErr result (AppendsPart (K.held sink.old) (K.held sink.new) bytes.now) }
    ensures cause { HasCause (K.faults sink.old) (K.faults sink.new) result }
    ensures calls { OnOk result (Calls K.succeeds sink.old sink.new) }
    ensures stops { OnErr result (StopsAtFault K.succeeds K.fails sink.old sink.new) }

    ensures sure { length bytes.now ≤ K.spare sink.old → IsOk result }
    ensures spare { OnOk result (K.spare sink.old ≤ K.spare sink.new + length bytes.now) }
{
    let mut done = 0;
    while done < bytes.len() {
        done += sink.write(&bytes[done..])?;
    }
    Ok(())
}
