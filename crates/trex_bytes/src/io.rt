// Which calls of a source or sink in memory fail, whole texts over them, and what std's readers and writers are asked for.

use std::alloc::{AllocError, Global};
use std::io::{self, ErrorKind, Write};
use std::test::Fail;
use trex_io::{
    Failed, MemSink, MemSource, ReadAll, Sink, Source, StdSink, StdSource, read_all, write_all,
    write_pieces,
};

/// A writer of std that takes at most three bytes a call, and counts its flushes. Where `fails` is set, a flush fails.
#[derive(Drop)]
struct Counting {
    taken: Vec<u8>,
    flushes: u32,
    flushed: usize,
    fails: bool,
}

impl Write for Counting {
    fn write(&mut self, piece: &[u8]) -> io::Result<usize> {
        let count = piece.len().min(3);
        self.taken.extend_from_slice(&piece[..count])?;
        Ok(count)
    }

    fn flush(&mut self) -> io::Result<()> {
        if self.fails {
            return Err(io::Error::from(ErrorKind::Other));
        }
        self.flushes = self.flushes.saturating_add(1);
        self.flushed = self.taken.len();
        Ok(())
    }
}

/// A list of numbers on the heap.
fn numbers(alloc: Global, list: &[u64]) -> Result<Vec<u64>, AllocError> {
    list.to_vec(alloc)
}

/// A source of five bytes, at most two a call, that fails at the calls of the list.
fn letters(alloc: Global, failing: &[u64]) -> Result<MemSource, AllocError> {
    Ok(MemSource::new(b"abcde".to_vec(alloc)?, 2, numbers(alloc, failing)?))
}

/// What that source gives as a whole text of at most so many bytes.
fn letters_read(
    alloc: Global,
    failing: &[u64],
    limit: usize,
) -> Result<Result<Vec<u8>, ReadAll>, AllocError> {
    let mut source = letters(alloc, failing)?;
    Ok(read_all(alloc, &mut source, limit))
}

/// A sink of six bytes, at most two a call, that fails at the calls of the list.
fn six(alloc: Global, failing: &[u64]) -> Result<MemSink, Fail> {
    Ok(MemSink::new(alloc, 6, 2, numbers(alloc, failing)?)?)
}

/// What reads of that source answer where the second one fails, and the first two bytes that they were given then.
const READS: [(Result<usize, Failed>, &[u8; 2]); 5] = [
    (Ok(2), b"ab"),
    (Err(Failed), b"ab"),
    (Ok(2), b"cd"),
    (Ok(1), b"ed"),
    (Ok(0), b"ed"),
];

/// What writes of three bytes answer at a sink of five bytes, at most two a call, where the second one fails.
const WRITES: [Result<usize, Failed>; 5] = [Ok(2), Err(Failed), Ok(2), Ok(1), Err(Failed)];

#[test]
fn a_source_in_memory_fails_at_its_call_and_then_goes_on(rt: HostRuntime) -> Result<(), Fail> {
    let mut source = letters(rt.alloc(), &[2])?;
    let mut into = [0u8; 4];
    for &(want, front) in &READS {
        assert_eq!(rt; source.read(&mut into), want);
        assert_eq!(rt; &into[..2], front.as_slice());
    }
    Ok(())
}

#[test]
fn a_sink_in_memory_fails_at_its_call_and_when_it_is_full(rt: HostRuntime) -> Result<(), Fail> {
    let mut sink = MemSink::new(rt.alloc(), 5, 2, numbers(rt.alloc(), &[2])?)?;
    for &want in &WRITES {
        assert_eq!(rt; sink.write(b"xyz"), want);
    }
    assert_eq!(rt; sink.write(b""), Ok(0));
    assert_eq!(rt; sink.bytes(), b"xyxyx".as_slice());
    Ok(())
}

#[test]
fn a_source_is_read_to_its_end_or_to_its_fault_or_past_the_limit(
    rt: HostRuntime,
) -> Result<(), Fail> {
    let all = letters_read(rt.alloc(), &[], 5)??;
    assert_eq!(rt; all.as_slice(), b"abcde".as_slice());
    let long = letters_read(rt.alloc(), &[], 4)?;
    assert!(rt; matches!(long, Err(ReadAll::TooLong { limit: 4 })));
    let failed = letters_read(rt.alloc(), &[3], 5)?;
    assert!(rt; matches!(failed, Err(ReadAll::Fault)));
    Ok(())
}

#[test]
fn pieces_are_written_whole(rt: HostRuntime) -> Result<(), Fail> {
    let pieces: [&[u8]; 3] = [b"abc", b"", b"def"];
    let mut whole = six(rt.alloc(), &[])?;
    assert_eq!(rt; write_pieces(&mut whole, &pieces), Ok(()));
    assert_eq!(rt; whole.bytes(), b"abcdef".as_slice());
    Ok(())
}

#[test]
fn a_text_is_written_up_to_the_failing_call(rt: HostRuntime) -> Result<(), Fail> {
    let mut part = six(rt.alloc(), &[2])?;
    assert_eq!(rt; write_all(&mut part, b"abcdef"), Err(Failed));
    assert_eq!(rt; part.bytes(), b"ab".as_slice());
    Ok(())
}

#[test]
fn std_streams_are_a_source_and_a_sink(rt: HostRuntime) -> Result<(), Fail> {
    let text = b"a reader of std\n";
    let all = read_all(rt.alloc(), &mut StdSource::new(text.as_slice()), 100)?;
    assert_eq!(rt; all.as_slice(), text.as_slice());
    assert_eq!(rt; write_all(&mut StdSink::new(rt.stdout()), &all), Ok(()));
    let mut room = [0u8; 4];
    assert_eq!(rt;
        write_all(&mut StdSink::new(room.as_mut_slice()), &all),
        Err(Failed)
    );
    assert_eq!(rt; room.as_slice(), b"a re".as_slice());
    Ok(())
}

#[test]
fn a_writer_of_std_is_flushed_after_each_write(rt: HostRuntime) -> Result<(), Fail> {
    let mut writer = Counting {
        taken: Vec::new(rt.alloc()),
        flushes: 0,
        flushed: 0,
        fails: false,
    };
    assert_eq!(rt;
        write_all(&mut StdSink::new(&mut writer), b"a letter"),
        Ok(())
    );
    assert_eq!(rt; writer.taken.as_slice(), b"a letter".as_slice());
    assert_eq!(rt; (writer.flushes, writer.flushed), (3, 8));
    writer.fails = true;
    assert_eq!(rt; StdSink::new(&mut writer).write(b"more"), Err(Failed));
    assert_eq!(rt; (writer.taken.len(), writer.flushed), (11, 8));
    Ok(())
}
