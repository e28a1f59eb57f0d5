//! Laws: each of these does nothing, and its contract is the theorem.

ghost use Rattle.lra_threads_instrument.specs.InstrumentKeeps.{InstrumentKeepsLive, InstrumentKeepsJumps};
ghost use Rattle.lra_threads_instrument.specs.InstrumentKeeps.{InstrumentKeepsDims, InstrumentKeepsNumbers};
ghost use Rattle.lra_threads_instrument.specs.InstrumentKeeps.{InstrumentKeepsPoints, InstrumentKeepsOps};

/// As many variables live after the instrumented tree as after the plain one.
pub fn instrument_keeps_live()
    ensures { InstrumentKeepsLive }
{}

/// The instrumented tree is left by the plain one's jumps, each with as many live variables.
pub fn instrument_keeps_jumps()
    ensures { InstrumentKeepsJumps }
{}

/// The operations of the instrumented tree can be carried out if the plain tree's can.
pub fn instrument_keeps_dims()
    ensures { InstrumentKeepsDims }
{}

/// The instrumented tree has the plain one's points and assertions, with the same numbers, each once.
pub fn instrument_keeps_numbers()
    ensures { InstrumentKeepsNumbers }
{}

/// The instrumented tree reaches each point with as many live variables as the plain one.
pub fn instrument_keeps_points()
    ensures { InstrumentKeepsPoints }
{}

/// The instrumented tree has the plain one's operations, in the same order.
pub fn instrument_keeps_ops()
    ensures { InstrumentKeepsOps }
{}
