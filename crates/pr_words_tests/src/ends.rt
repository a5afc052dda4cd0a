//! What no clause says: that ends are read and written where there is memory, what errors say, and that errors of
//! readers and writers of std are counted.
use pr_io::{Failed, MemSource, ReadEnd, Source, StdSink, StdSource, read_all, write_all};
use pr_num::{Bytes, NoMemory};
use std::alloc::Global;
use std::io;
use std::io::{ErrorKind, Read, Write};
use std::test::Fail;

fn source(alloc: Global, text: &str, fails: &[u64]) -> Result<MemSource, NoMemory> {
    let bytes = Bytes::from_vec(text.as_bytes().to_vec(alloc)?);
    Ok(MemSource::new(bytes, fails.to_vec(alloc)?))
}

fn answer(got: &Result<Bytes, ReadEnd>) -> Result<&[u8], ReadEnd> {
    match got {
        Ok(bytes) => Ok(bytes.as_slice()),
        Err(end) => Err(*end),
    }
}

// Two bytes a call, and at each third call an error.
#[derive(Drop)]
struct Flaky<T> {
    inner: T,
    calls: u32,
}

impl<T> Flaky<T> {
    fn has_error(&mut self) -> bool {
        self.calls = self.calls.wrapping_add(1);
        self.calls % 3 == 0
    }
}

impl<R: Read> Read for Flaky<R> {
    fn read(&mut self, buf: &mut [u8]) -> io::Result<usize> {
        if self.has_error() {
            return Err(io::Error::from(ErrorKind::Other));
        }
        let n = buf.len().min(2);
        self.inner.read(&mut buf[..n])
    }
}

impl<W: Write> Write for Flaky<W> {
    fn write(&mut self, buf: &[u8]) -> io::Result<usize> {
        if self.has_error() {
            return Err(io::Error::from(ErrorKind::Other));
        }
        self.inner.write(&buf[..buf.len().min(2)])
    }

    fn flush(&mut self) -> io::Result<()> {
        Ok(())
    }
}

#[test]
fn all_is_read_up_to_the_limit(rt: HostRuntime) -> Result<(), Fail> {
    for (text, limit, fails, want, calls) in [
        ("", 0, [].as_slice(), Ok("".as_bytes()), 1),
        ("abc", 4, [].as_slice(), Ok("abc".as_bytes()), 2),
        ("abc", 3, [].as_slice(), Ok("abc".as_bytes()), 2),
        ("abc", 2, [].as_slice(), Err(ReadEnd::TooLong), 1),
        ("abc", 0, [].as_slice(), Err(ReadEnd::TooLong), 1),
        ("abc", usize::MAX, [].as_slice(), Ok("abc".as_bytes()), 2),
        ("abc", 3, [0].as_slice(), Err(ReadEnd::Failed), 1),
        ("abc", 3, [1].as_slice(), Err(ReadEnd::Failed), 2),
        ("abc", 3, [2].as_slice(), Ok("abc".as_bytes()), 2),
    ] {
        let mut source = source(rt.alloc(), text, fails)?;
        let got = read_all(rt.alloc(), &mut source, limit);
        assert_eq!(rt; answer(&got), want, "{text} at {limit}");
        assert_eq!(rt; source.calls(), calls, "{text} at {limit}");
    }
    Ok(())
}

#[test]
fn a_reader_of_std_is_read_and_its_errors_are_counted(rt: HostRuntime) -> Result<(), Fail> {
    let mut whole = StdSource::new(b"abcde".as_slice());
    let got = read_all(rt.alloc(), &mut whole, 5);
    assert_eq!(rt; answer(&got), Ok(b"abcde".as_slice()));
    assert_eq!(rt; whole.faults, 0);

    let mut flaky = StdSource::new(Flaky {
        inner: b"abcdefg".as_slice(),
        calls: 0,
    });
    let mut buf = [0; 4];
    for (want, faults) in [
        (Ok(2), 0),
        (Ok(2), 0),
        (Err(Failed), 1),
        (Ok(2), 1),
        (Ok(1), 1),
        (Err(Failed), 2),
        (Ok(0), 2),
    ] {
        assert_eq!(rt; flaky.read(&mut buf), want);
        assert_eq!(rt; flaky.faults, faults);
    }
    Ok(())
}

#[test]
fn a_writer_of_std_is_written_and_its_errors_are_counted(rt: HostRuntime) -> Result<(), Fail> {
    for (part, want, there, faults) in [
        ("abcd", Ok(()), "abcd", 0),
        ("abcdefg", Err(Failed), "abcd", 1),
    ] {
        let mut sink = StdSink::new(Flaky {
            inner: Vec::new(rt.alloc()),
            calls: 0,
        });
        assert_eq!(rt; write_all(&mut sink, part.as_bytes()), want);
        assert_eq!(rt; sink.output.inner.as_slice(), there.as_bytes());
        assert_eq!(rt; sink.faults, faults);
    }

    let mut full = StdSink::new(io::Cursor::new([0; 2]));
    assert_eq!(rt; write_all(&mut full, b"abc"), Err(Failed));
    assert_eq!(rt; full.faults, 1);
    Ok(())
}

#[test]
fn errors_say_what_happened(rt: HostRuntime) -> Result<(), Fail> {
    assert_eq!(rt;
        Failed.to_string(rt.alloc())?.as_str(),
        "a read or a write failed"
    );
    for (end, want) in [
        (ReadEnd::Failed, "a read or a write failed"),
        (ReadEnd::TooLong, "the input is too long"),
        (ReadEnd::NoMemory, "out of memory"),
    ] {
        assert_eq!(rt; end.to_string(rt.alloc())?.as_str(), want);
    }
    Ok(())
}
