//! The rounds: each thread is analysed among what the others wrote so far, until nothing is written that wasn't
//! reported.

ghost use Rattle.std.specs.Prelude.{◌≡◌, ◌<◌, ℕ, [], ◌∷◌, ◌++◌, None, length, IfOk};
ghost use Rattle.lra_domain.specs.Interference.{Interference};
ghost use Rattle.lra_box.specs.Content.{BoxContent};
ghost use Rattle.lra_threads_fixpoint.specs.Found.{fixpoint_view};
ghost use Rattle.lra_threads_fixpoint.specs.Interference.{row_interference, interference_on, written_by};
ghost use Rattle.lra_threads_fixpoint.specs.Rounds.{flag_of, flag_so_far, ResultReadings, IsRound, AllRounds};

use crate::intervals::Intervals;
use crate::tables::{
    JOINING_ROUNDS, begin_table, find_interference, grow_table, growth_with, is_fixpoint,
};
use std::alloc::{AllocError, Global};

/// Threads that run beside each other over the same globals, each of which can be analysed among what others may do.
pub trait Threads {
    /// What an analysis of one thread finds.
    type Found: Drop;

    /// How many threads there are, and how many globals.
    ghost threads: { Self → ℕ };

    ghost shared: { Self → ℕ };

    /// What an analysis asks of them.
    ghost ready: { Self → Type 0 };

    /// What is found: the notes of what the thread gives, and the first flagged point.
    ghost finding: { ResultReadings Self.Found };

    /// What an analysis of a thread, by its number, among others finds.
    ghost finds: { Self → ℕ → Interference BoxContent → Self.Found → Type 0 };

    /// How many threads there are.
    fn count(&self) -> usize
        ensures { result ≡ threads self.now };

    /// How many globals there are.
    fn globals(&self) -> usize
        ensures { result ≡ shared self.now };

    /// Analyses thread `k`, while others may do what it is reported.
    fn analyse(&self, alloc: Global, k: usize, told: &Intervals) -> Result<Self::Found, AllocError>
        requires ready { ready self.now }
        requires thread { k < threads self.now }
        ensures { IfOk result (λ found. finds self.now k (row_interference told.now) found) };

    /// The intervals of what a thread gives, as it is noted.
    fn write(&self, alloc: Global, found: &Self::Found) -> Result<Intervals, AllocError>
        ensures { IfOk result (λ w. w ≡ written_by (shared self.now) (finding.notes found.now)) };

    /// The first flagged point.
    fn flagged(&self, found: &Self::Found) -> Option<usize>
        ensures { result ≡ finding.flag found.now };
}

/// What is found of each thread in the round that settles, the intervals of that round, and the first flag of all
/// rounds: a thread's number and a point.
#[derive(Drop)]
pub struct FixpointRound<F> {
    pub table: Vec<Intervals>,
    pub found: Vec<F>,
    pub flag: Option<(usize, usize)>,
}

/// What an analysis of one thread finds, what that thread writes, and the first flagged point.
#[derive(Drop)]
struct Turn<F> {
    found: F,
    written: Intervals,
    point: Option<usize>,
}

/// What one round finds of each thread, what each thread writes, and the first flag so far.
#[derive(Drop)]
struct Round<F> {
    found: Vec<F>,
    written: Vec<Intervals>,
    flag: Option<(usize, usize)>,
}

/// The first flag so far, after the analysis of thread `k` with this flagged point.
fn note_flag(flag: Option<(usize, usize)>, k: usize, point: Option<usize>) -> Option<(usize, usize)>
    ensures { result ≡ flag_so_far flag (flag_of k point None) }
{
    match (flag, point) {
        (Some(first), _) => Some(first),
        (None, Some(q)) => Some((k, q)),
        (None, None) => None,
    }
}

impl<F: Drop> Round<F> {
    /// The turn of thread `k` comes in.
    fn add(&mut self, k: usize, turn: Turn<F>) -> Result<(), AllocError>
        ensures { IfOk result (λ done. (self.new.found.items ≡ self.old.found.items ++ turn.found ∷ [])
            × (self.new.written.items ≡ self.old.written.items ++ turn.written ∷ [])
            × (self.new.flag ≡ flag_so_far self.old.flag (flag_of k turn.point None))) }
    {
        self.flag = note_flag(self.flag, k, turn.point);
        self.found.push(turn.found)?;
        self.written.push(turn.written)?;
        Ok(())
    }
}

/// Analyses thread `k`, while the others may give what the table says.
fn take_turn<T: Threads>(
    alloc: Global,
    threads: &T,
    k: usize,
    table: &[Intervals],
) -> Result<Turn<T::Found>, AllocError>
    requires ready { T.ready threads.now }
    requires thread { k < T.threads threads.now }
    requires long { length table.now ≡ T.threads threads.now }
    ensures { IfOk result (λ turn.
        T.finds threads.now k
        (row_interference (interference_on (T.shared threads.now) k table.now)) turn.found
        × (turn.written ≡ written_by (T.shared threads.now) (T.finding.notes turn.found))
        × (turn.point ≡ T.finding.flag turn.found)) }
{
    let told = find_interference(alloc, threads.globals(), k, table)?;
    let found = threads.analyse(alloc, k, &told)?;
    let written = threads.write(alloc, &found)?;
    let point = threads.flagged(&found);
    Ok(Turn {
        found,
        written,
        point,
    })
}

/// Analyses each thread, while the others may give what the table says.
fn go_round<T: Threads>(
    alloc: Global,
    threads: &T,
    table: &[Intervals],
    flag: Option<(usize, usize)>,
) -> Result<Round<T::Found>, AllocError>
    requires ready { T.ready threads.now }
    requires long { length table.now ≡ T.threads threads.now }
    ensures { IfOk result (λ r. IsRound T.finding (T.shared threads.now) (T.finds threads.now)
        (T.threads threads.now) flag table.now r.found.items r.written.items r.flag) }
{
    let mut round = Round {
        found: Vec::new(alloc),
        written: Vec::new(alloc),
        flag,
    };
    'threads: for k in 0..threads.count() {
        let turn = take_turn(alloc, threads, k, table)?;
        round.add(k, turn)?;
    }
    Ok(round)
}

/// Rounds, until one settles.
pub fn find_fixpoint<T: Threads>(
    alloc: Global,
    threads: &T,
) -> Result<FixpointRound<T::Found>, AllocError>
    requires { T.ready threads.now }
    ensures { IfOk result (λ end. AllRounds T.finding (T.shared threads.now) (T.finds threads.now)
        (T.threads threads.now) (fixpoint_view end)) }
{
    let mut table = begin_table(alloc, threads.count(), threads.globals())?;
    let mut left = JOINING_ROUNDS;
    let mut flag = None;
    'rounds: loop {
        let round = go_round(alloc, threads, &table, flag)?;
        if is_fixpoint(&round.written, &table) {
            return Ok(FixpointRound {
                table,
                found: round.found,
                flag: round.flag,
            });
        }
        grow_table(&mut table, growth_with(left), &round.written);
        left = left.saturating_sub(1);
        flag = round.flag;
    }
}
