// Where bytes come from.
ghost use Rattle.std.specs.Prelude.{ℕ, List, Option, OnOk, OnErr};
ghost use Rattle.std.specs.{Io.ReadsAtMost, Io.KnownBytes.ReadConsumes};
ghost use Rattle.lra_io.specs.Causes.{HasCause};

/// A device refused a read or a write.
#[derive(Clone, Copy, Debug, PartialEq, Eq)]
pub struct Failed;

/// A stream of bytes that are read in pieces.
pub trait Source {
    /// The bytes still to come, if the source reports them.
    ghost left: { Self → Option (List ℕ) };

    /// How often a read failed; it stays at 2^64 - 1 once it is there.
    ghost faults: { Self → ℕ };

    /// The states before and after a read that succeeds.
    ghost succeeds: { Self → Self → Type 0 };

    /// The states before and after a read that fails.
    ghost fails: { Self → Self → Type 0 };

    /// Moves the first bytes that are left into the buffer, and says how many.
    ///
    /// For a buffer that is not empty, 0 is the end of the input and comes only there. A read that fails takes no byte.
    fn read(&mut self, into: &mut [u8]) -> Result<usize, Failed>
        ensures bound { ReadsAtMost result into.new }
        ensures bytes { ReadConsumes (left self.old) (left self.new) result into.new }
        ensures cause { HasCause (faults self.old) (faults self.new) result }
        ensures success { OnOk result (succeeds self.old self.new) }
        ensures fault { OnErr result (fails self.old self.new) };
}
