ghost use Rattle.std.specs.Prelude.{◌≤◌, IfOk};

use lra_io::{
    Failed, MemSink, MemSource, QuietSink, QuietSource, ReadError, RealSink, RealSource, Sink,
    Source, read_whole, write_whole,
};
use std::alloc::{AllocError, Global};
use std::io::{self, ErrorKind, Read, Write};

/// Whether the source's reads give these bytes, `!` standing for a fault.
fn reads<S: Source>(source: &mut S, into: &mut [u8], told: &[&[u8]]) -> bool {
    for bytes in told {
        let same = match source.read(into) {
            Ok(count) => &into[..count] == *bytes,
            Err(Failed) => *bytes == b"!".as_slice(),
        };
        if !same {
            return false;
        }
    }
    true
}

/// Whether the writes of the pieces report this.
fn writes<K: Sink>(sink: &mut K, pieces: &[&[u8]], told: &[Result<usize, Failed>]) -> bool {
    for (piece, end) in pieces.iter().zip(told) {
        if sink.write(piece) != *end {
            return false;
        }
    }
    pieces.len() == told.len()
}

/// How many bytes a source of `abcdef` gives a read, its reads that fail, the buffer's length, and what five reads
/// give.
static READS: [(usize, &[u64], usize, &[&[u8]]); 4] = [
    (2, &[2], 4, &[b"ab", b"!", b"cd", b"ef", b""]),
    (3, &[], 2, &[b"ab", b"cd", b"ef", b"", b""]),
    (9, &[1, 2, 5], 9, &[b"!", b"!", b"abcdef", b"", b"!"]),
    (9, &[3], 0, &[b"", b"", b"!", b"", b""]),
];

/// Whether the reads of such a source give that.
fn memory_reads(
    alloc: Global,
    most: usize,
    fails: &[u64],
    buffer: usize,
    told: &[&[u8]],
) -> Result<bool, AllocError> {
    let mut source = MemSource::new(alloc, b"abcdef", most.max(1), fails)?;
    Ok(reads(&mut source, &mut [0u8; 9][..buffer.min(9)], told))
}

fn quiet_reads(alloc: Global) -> Result<bool, AllocError> {
    let mut source = QuietSource::new(alloc, b"abcdef", 4)?;
    Ok(reads(&mut source, &mut [0u8; 9], &[b"abcd", b"ef", b""]))
}

/// A reader of std passes its bytes.
fn std_reads() -> bool {
    let bytes: &[u8] = b"abcde";
    let told: &[&[u8]] = &[b"ab", b"cd", b"e", b""];
    reads(&mut RealSource::new(bytes), &mut [0u8; 2], told)
}

#[test]
fn sources_give_their_bytes(rt: HostRuntime) {
    for (most, fails, buffer, told) in READS.iter() {
        let same = memory_reads(rt.alloc(), *most, fails, *buffer, told);
        assert!(rt; same == Ok(true), "most {most}, buffer {buffer}");
    }
    assert!(rt; quiet_reads(rt.alloc()) == Ok(true));
    assert!(rt; std_reads());
}

static PIECES: [&[u8]; 6] = [b"abc", b"def", b"ghi", b"jkl", b"", b"m"];

/// What the write of each piece reports.
type Writes = [Result<usize, Failed>; 6];

/// A sink's room, how many bytes it takes at most, its writes that fail, what each piece's write reports, and what the
/// sink then holds.
static WRITES: [(usize, usize, &[u64], Writes, &[u8]); 4] = [
    (
        5,
        2,
        &[2],
        [Ok(2), Err(Failed), Ok(2), Ok(1), Ok(0), Err(Failed)],
        b"abghj",
    ),
    (
        99,
        9,
        &[],
        [Ok(3), Ok(3), Ok(3), Ok(3), Ok(0), Ok(1)],
        b"abcdefghijklm",
    ),
    (
        99,
        9,
        &[1, 5],
        [Err(Failed), Ok(3), Ok(3), Ok(3), Err(Failed), Ok(1)],
        b"defghijklm",
    ),
    (
        0,
        1,
        &[],
        [
            Err(Failed),
            Err(Failed),
            Err(Failed),
            Err(Failed),
            Ok(0),
            Err(Failed),
        ],
        b"",
    ),
];

/// Whether the writes of all pieces into such a sink report this, and it then holds this.
fn memory_writes(
    alloc: Global,
    (room, most): (usize, usize),
    fails: &[u64],
    told: &Writes,
    held: &[u8],
) -> Result<bool, AllocError> {
    let mut sink = MemSink::new(alloc, room, most.max(1), fails)?;
    Ok(writes(&mut sink, &PIECES, told) && sink.bytes() == held)
}

fn quiet_writes(alloc: Global) -> Result<bool, AllocError> {
    let mut sink = QuietSink::new(alloc, 4, 2)?;
    let told = [Ok(2), Ok(2), Err(Failed), Err(Failed), Ok(0), Err(Failed)];
    Ok(writes(&mut sink, &PIECES, &told) && sink.bytes() == b"abde".as_slice())
}

#[test]
fn sinks_take_what_has_room(rt: HostRuntime) {
    for (room, most, fails, told, held) in WRITES.iter() {
        let same = memory_writes(rt.alloc(), (*room, *most), fails, told, held);
        assert!(rt; same == Ok(true), "room {room}");
    }
    assert!(rt; quiet_writes(rt.alloc()) == Ok(true));
}

/// Short inputs, the limit, how many bytes of each are read, and whether that is all.
static INPUTS: [(&[u8], usize, usize, bool); 5] = [
    (b"", 0, 0, true),
    (b"a", 0, 1, false),
    (b"abcd", 4, 4, true),
    (b"abcde", 4, 5, false),
    (b"abcdefgh", 4, 5, false),
];

/// The length of an input of bytes `x`, the limit, how many bytes are read, and whether that is all.
static LENGTHS: [(usize, usize, usize, bool); 3] = [
    (5000, 4999, 5000, false),
    (5000, 5000, 5000, true),
    (5000, 4096, 4097, false),
];

/// Whether so many bytes of the prefix are read, and that is all or not.
fn ends_so(end: &Result<Vec<u8>, ReadError>, bytes: &[u8], count: usize, fits: bool) -> bool {
    match end {
        Ok(whole) => fits && whole.len() == count && bytes.starts_with(whole),
        Err(ReadError::TooLong(first)) => !fits && first.len() == count && bytes.starts_with(first),
        Err(_) => false,
    }
}

/// Whether so many bytes of an input are read under the limit, and that is all or not.
fn reads_whole(
    alloc: Global,
    bytes: &[u8],
    limit: usize,
    count: usize,
    fits: bool,
) -> Result<bool, AllocError> {
    let mut source = QuietSource::new(alloc, bytes, 3000)?;
    let end = read_whole(alloc, &mut source, limit.min(5000));
    Ok(ends_so(&end, bytes, count, fits))
}

/// Whether so many bytes of an input of `length` bytes `x` are read under the limit, and that is all or not.
fn reads_long(
    alloc: Global,
    length: usize,
    limit: usize,
    count: usize,
    fits: bool,
) -> Result<bool, AllocError> {
    let bytes = vec![in alloc; b'x'; length]?;
    reads_whole(alloc, &bytes, limit, count, fits)
}

#[test]
fn inputs_are_read_up_to_the_limit(rt: HostRuntime) {
    for (bytes, limit, count, fits) in INPUTS.iter() {
        let same = reads_whole(rt.alloc(), bytes, *limit, *count, *fits);
        assert!(rt; same == Ok(true), "limit {limit}");
    }
    for (length, limit, count, fits) in LENGTHS.iter() {
        let same = reads_long(rt.alloc(), *length, *limit, *count, *fits);
        assert!(rt; same == Ok(true), "limit {limit}");
    }
}

/// A fault ends reading at once.
fn fault_ends_reading(alloc: Global) -> Result<bool, AllocError> {
    let mut source = MemSource::new(alloc, b"abcdef", 2, &[2])?;
    let failed = matches!(read_whole(alloc, &mut source, 9), Err(ReadError::Failed));
    Ok(failed && reads(&mut source, &mut [0u8; 4], &[b"cd", b"ef", b""]))
}

/// A fault ends writing at once.
fn fault_ends_writing(alloc: Global) -> Result<bool, AllocError> {
    let mut sink = MemSink::new(alloc, 99, 10, &[2])?;
    let failed = write_whole(&mut sink, b"analysis box") == Err(Failed);
    let front = sink.bytes() == b"analysis b".as_slice();
    let written = write_whole(&mut sink, b"ox") == Ok(());
    Ok(failed && front && written && sink.bytes() == b"analysis box".as_slice())
}

/// A full sink ends writing at once.
fn full_sink_ends_writing(alloc: Global) -> Result<bool, AllocError> {
    let mut quiet = QuietSink::new(alloc, 5, 2)?;
    let written = write_whole(&mut quiet, b"abcde") == Ok(());
    let failed = write_whole(&mut quiet, b"f") == Err(Failed);
    Ok(written && failed && quiet.bytes() == b"abcde".as_slice())
}

/// A writer of std passes its bytes.
fn std_writes(alloc: Global) -> bool {
    let mut held = Vec::new(alloc);
    let mut sink = RealSink::new(&mut held);
    let first = write_whole(&mut sink, b"abc") == Ok(());
    let nothing = write_whole(&mut sink, b"") == Ok(());
    let last = write_whole(&mut sink, b"de") == Ok(());
    first && nothing && last && held.as_slice() == b"abcde".as_slice()
}

#[test]
fn faults_and_full_sinks_end_at_once(rt: HostRuntime) {
    assert!(rt; fault_ends_reading(rt.alloc()) == Ok(true));
    assert!(rt; fault_ends_writing(rt.alloc()) == Ok(true));
    assert!(rt; full_sink_ends_writing(rt.alloc()) == Ok(true));
    assert!(rt; std_writes(rt.alloc()));
}

/// Is interrupted so often, then fails once if it is to fail, and then moves one byte a call, or none.
#[derive(Drop)]
struct Device {
    interrupts: u32,
    failure: Option<ErrorKind>,
    moves: usize,
    calls: u32,
}

impl Device {
    fn call(&mut self, room: usize) -> io::Result<usize>
        ensures { IfOk result (λ count. count ≤ room) }
    {
        self.calls = self.calls.saturating_add(1);
        if self.interrupts > 0 {
            self.interrupts -= 1;
            return Err(io::Error::from(ErrorKind::Interrupted));
        }
        match self.failure.take() {
            Some(kind) => Err(io::Error::from(kind)),
            None => Ok(self.moves.min(room)),
        }
    }
}

impl Read for Device {
    fn read(&mut self, into: &mut [u8]) -> io::Result<usize> {
        let count = self.call(into.len())?;
        into[..count].fill(b'r');
        Ok(count)
    }
}

impl Write for Device {
    fn write(&mut self, piece: &[u8]) -> io::Result<usize> {
        self.call(piece.len())
    }

    fn flush(&mut self) -> io::Result<()> {
        Ok(())
    }
}

/// How often a device is interrupted, its failure then, how many bytes a call moves, what two reads and two writes
/// report, and how many calls of the device they make.
type Tries = (
    u32,
    Option<ErrorKind>,
    usize,
    [&'static [u8]; 2],
    [Result<usize, Failed>; 2],
    u32,
);

/// A device is tried again eight times.
static TRIES: [Tries; 6] = [
    (8, None, 1, [b"r", b"r"], [Ok(1), Ok(1)], 10),
    (9, None, 1, [b"!", b"r"], [Err(Failed), Ok(1)], 10),
    (10, None, 1, [b"!", b"r"], [Err(Failed), Ok(1)], 11),
    (
        0,
        Some(ErrorKind::TimedOut),
        1,
        [b"!", b"r"],
        [Err(Failed), Ok(1)],
        2,
    ),
    (
        3,
        Some(ErrorKind::TimedOut),
        2,
        [b"!", b"rr"],
        [Err(Failed), Ok(2)],
        5,
    ),
    (0, None, 0, [b"", b""], [Err(Failed), Err(Failed)], 2),
];

fn make_device(interrupts: u32, failure: Option<ErrorKind>, moves: usize) -> Device {
    Device {
        interrupts,
        failure,
        moves,
        calls: 0,
    }
}

/// Whether two reads of the device report this, and make so many calls.
fn device_reads(mut reader: Device, told: &[&[u8]], calls: u32) -> bool {
    let same = reads(&mut RealSource::new(&mut reader), &mut [0u8; 3], told);
    same && reader.calls == calls
}

/// Whether two writes to the device report this, and make so many calls.
fn device_writes(mut writer: Device, told: &[Result<usize, Failed>], calls: u32) -> bool {
    let same = writes(&mut RealSink::new(&mut writer), &[b"abc", b"abc"], told);
    same && writer.calls == calls
}

/// Of such a device's first read, the error that is reported, if there is one.
fn told_error(interrupts: u32, failure: Option<ErrorKind>) -> Option<ErrorKind> {
    let mut source = RealSource::new(make_device(interrupts, failure, 1));
    if source.last_error().is_some() {
        return None;
    }
    match source.read(&mut [0u8; 3]) {
        Ok(_) | Err(Failed) => source.last_error().map(|error| error.kind()),
    }
}

#[test]
fn the_last_error_is_told(rt: HostRuntime) {
    assert!(rt; told_error(0, None).is_none());
    assert!(rt; told_error(0, Some(ErrorKind::IsADirectory)) == Some(ErrorKind::IsADirectory));
    assert!(rt; told_error(3, Some(ErrorKind::TimedOut)) == Some(ErrorKind::TimedOut));
    assert!(rt; told_error(9, None) == Some(ErrorKind::Interrupted));
}

#[test]
fn interrupted_calls_are_tried_again_eight_times(rt: HostRuntime) {
    for (interrupts, failure, moves, given, taken, calls) in TRIES.iter() {
        let read = device_reads(make_device(*interrupts, *failure, *moves), given, *calls);
        let written = device_writes(make_device(*interrupts, *failure, *moves), taken, *calls);
        assert!(rt; read && written, "{interrupts} interrupts");
    }
}
