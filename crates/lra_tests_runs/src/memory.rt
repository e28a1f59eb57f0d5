//! Runs over memory: a source and a sink move ten bytes a call, and some call of each may fail.

use lra_commands::{MemSink, MemSource, Status, run};
use std::alloc::{AllocError, Global};

/// The words that ask for a report over boxes.
pub const BOXES: &str = "lra analyse --domain box";

/// No read and no write fails.
pub const SOUND: (u64, u64) = (0, 0);

/// A source whose assertion boxes prove.
pub const PROVED: &str = "int main(void){ long x; x = 3; assert(x >= 3); }";

/// The report of `PROVED` over boxes.
pub const PROVED_REPORT: &str = "analysis box parts 1 delay 1 narrow 1 limited no\n\
    flagged 0\npoint 1 main 1:22\n  row true\n\
    point 2 main 1:25\n  row true\npoint 3 main 1:32\n\
    \x20 row x = 3\npoint 4 main 1:48\n  row x = 3\n\
    assert 3 main 1:32 proved\n\
    verdicts proved 1 unknown 0\n";

/// The words of a line, between single spaces.
fn words_of(alloc: Global, line: &str) -> Result<Vec<String>, AllocError> {
    let mut words = Vec::new(alloc);
    for word in line.split(' ') {
        words.push(String::from_str(alloc, word)?)?;
    }
    Ok(words)
}

/// The status beside what the sink holds.
fn with_text(
    alloc: Global,
    status: Status,
    sink: &MemSink,
) -> Result<(Status, String), AllocError> {
    let text = str::from_utf8(sink.bytes()).unwrap_or("not UTF-8");
    Ok((status, String::from_str(alloc, text)?))
}

/// How a run over these bytes ends, and what the sink, with room for so many bytes, then holds. The words stand between
/// single spaces, the program's name first. The read and the write of these numbers, counted from 1, fail.
///
/// Fails if memory runs out for the words or the text. If the sink holds other bytes than UTF-8, it says so.
pub fn ended_within(
    alloc: Global,
    words: &str,
    source: &[u8],
    (read, write): (u64, u64),
    room: usize,
) -> Result<(Status, String), AllocError> {
    let words = words_of(alloc, words)?;
    let mut source = MemSource::new(alloc, source, 10, &[read])?;
    let mut sink = MemSink::new(alloc, room, 10, &[write])?;
    let status = run(alloc, &words, &mut source, &mut sink);
    with_text(alloc, status, &sink)
}

/// How a run ends, as by `ended_within`, with a sink that has room for 200,000 bytes.
pub fn ended(
    alloc: Global,
    words: &str,
    source: &[u8],
    fails: (u64, u64),
) -> Result<(Status, String), AllocError> {
    ended_within(alloc, words, source, fails, 200_000)
}

/// How a run ends of which no call fails, and whether these lines stand in what it writes. Fails as
/// [`ended`](crate::memory::ended) does.
pub fn told(
    alloc: Global,
    words: &str,
    source: &[u8],
    lines: &str,
) -> Result<(Status, bool), AllocError> {
    let (status, text) = ended(alloc, words, source, SOUND)?;
    Ok((status, text.contains(lines)))
}

/// How a run ends, and whether this is all that it writes. Fails as [`ended`](crate::memory::ended) does.
pub fn written(
    alloc: Global,
    words: &str,
    source: &[u8],
    fails: (u64, u64),
    whole: &str,
) -> Result<(Status, bool), AllocError> {
    let (status, text) = ended(alloc, words, source, fails)?;
    Ok((status, text.as_bytes() == whole.as_bytes()))
}
