// Sources and sinks over the readers and writers of std: the trusted edge.
ghost use Rattle.std.specs.Prelude.{◌≡◌, ◌<◌, ℕ, List, length, IfOk, OnOk, OnErr, None};
ghost use Rattle.std.specs.{Io.ReadsAtMost, Io.WritesAtMost, Io.KnownBytes.ReadConsumes, Io.KnownBytes.WriteAppends};
ghost use Rattle.lra_io.specs.{Causes.HasCause, Real.CountsFault, Real.GoesOn, Real.Stops};

use crate::{Failed, Sink, Source};
use std::io;
use std::io::{ErrorKind, Read, Write};
use std::marker::Model;

/// How often in a row an interrupted call is made again.
const RETRIES: u32 = 8;

/// A source over a reader of std. Its bytes are known to contracts if the reader's are.
///
/// A read that is interrupted is tried again up to eight times in a row, then it is a fault.
#[derive(Drop)]
pub struct RealSource<R> {
    inner: R,
    faults: u64,
    error: Option<io::Error>,
}

impl<R> Model for RealSource<R> {
    ghost use Rattle.lra_io.specs.Real.{Counted};

    ghost Value = { Counted R };

    ghost view = { λ s. record { device = s.inner; faults = s.faults } };
}

impl<R: Read> RealSource<R> {
    /// A source over this reader, of which no read failed yet.
    pub fn new(inner: R) -> Self
        ensures { result ≡ record { device = inner; faults = 0 } }
    {
        RealSource {
            inner,
            faults: 0,
            error: None,
        }
    }

    /// What the reader answered last if it gave no bytes, `None` if it always did.
    pub fn last_error(&self) -> Option<io::Error> {
        self.error
    }
}

impl<R: Read> Source for RealSource<R> {
    ghost left = { λ s. R.remaining s.device };

    ghost faults = { λ s. s.faults };

    ghost succeeds = { λ old new. GoesOn old new };

    ghost fails = { λ old new. Stops old new };

    fn read(&mut self, into: &mut [u8]) -> Result<usize, Failed>
        ensures bound { ReadsAtMost result into.new }
        ensures bytes { ReadConsumes (R.remaining self.old.device) (R.remaining self.new.device) result into.new }
        ensures cause { HasCause self.old.faults self.new.faults result }
        ensures success { OnOk result (GoesOn self.old self.new) }
        ensures fault { OnErr result (Stops self.old self.new) }
        ensures counted { CountsFault self.old.faults self.new.faults result }
    {
        'tries: for _ in 0..=RETRIES {
            match self.inner.read(into) {
                Ok(count) => return Ok(count),
                Err(error) => {
                    self.error = Some(error);
                    if error.kind() != ErrorKind::Interrupted {
                        break;
                    }
                }
            }
        }
        self.faults = self.faults.saturating_add(1);
        Err(Failed)
    }
}

/// A sink over a writer of std. Its bytes are known to contracts if the writer's are.
///
/// A write that is interrupted is tried again up to eight times in a row, then it is a fault; so is a write that takes
/// nothing of a piece that is not empty.
#[derive(Drop)]
pub struct RealSink<W> {
    inner: W,
    faults: u64,
}

impl<W> Model for RealSink<W> {
    ghost use Rattle.lra_io.specs.Real.{Counted};

    ghost Value = { Counted W };

    ghost view = { λ s. record { device = s.inner; faults = s.faults } };
}

impl<W: Write> RealSink<W> {
    /// A sink over this writer, of which no write failed yet.
    pub fn new(inner: W) -> Self
        ensures { result ≡ record { device = inner; faults = 0 } }
    {
        RealSink { inner, faults: 0 }
    }
}

impl<W: Write> Sink for RealSink<W> {
    ghost held = { λ s. W.contents s.device };

    ghost faults = { λ s. s.faults };

    ghost succeeds = { λ old new. GoesOn old new };

    ghost fails = { λ old new. Stops old new };

    ghost spare = { λ _. 0 };

    fn write(&mut self, piece: &[u8]) -> Result<usize, Failed>
        ensures bound { WritesAtMost result piece.now }
        ensures some { IfOk result (λ count. 0 < length piece.now → 0 < count) }
        ensures bytes { WriteAppends (W.contents self.old.device) (W.contents self.new.device) result piece.now }
        ensures cause { HasCause self.old.faults self.new.faults result }
        ensures success { OnOk result (GoesOn self.old self.new) }
        ensures fault { OnErr result (Stops self.old self.new) }
        ensures counted { CountsFault self.old.faults self.new.faults result }
    {
        'tries: for _ in 0..=RETRIES {
            match self.inner.write(piece) {
                Ok(0) if !piece.is_empty() => break,
                Ok(count) => return Ok(count),
                Err(error) => {
                    if error.kind() != ErrorKind::Interrupted {
                        break;
                    }
                }
            }
        }
        self.faults = self.faults.saturating_add(1);
        Err(Failed)
    }
}
