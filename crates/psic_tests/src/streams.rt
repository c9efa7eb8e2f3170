// Standard streams, and streams that refuse.
use psi_edges::{ErrSink, Failed, OutSink, Sink, StreamSink, WriteFault, write_whole};
use std::io;
use std::io::Write;

#[test]
fn a_whole_text_is_put_to_the_standard_output(rt: HostRuntime) {
    assert_eq!(rt;
        write_whole(&mut OutSink::new(rt.stdout()), b"out\n"),
        Ok(())
    );
}

#[test]
fn a_whole_text_is_put_to_the_standard_error(rt: HostRuntime) {
    assert_eq!(rt;
        write_whole(&mut ErrSink::new(rt.stderr()), b"err\n"),
        Ok(())
    );
}

/// A writer that takes at most two bytes a call. Its journal has the bytes that it took, and a bar for each flush.
#[derive(Drop)]
struct ShortWriter {
    journal: Vec<u8>,
}

impl Write for ShortWriter {
    fn write(&mut self, buf: &[u8]) -> io::Result<usize> {
        self.journal.write(&buf[..buf.len().min(2)])
    }

    fn flush(&mut self) -> io::Result<()> {
        self.journal.write_all(b"|")
    }
}

#[test]
fn a_stream_is_flushed_after_each_write_and_gets_each_byte_once(rt: HostRuntime) {
    let mut writer = ShortWriter {
        journal: Vec::new(rt.alloc()),
    };
    let mut sink = StreamSink::new(&mut writer);
    assert_eq!(rt; sink.put(b"hello"), Ok(2));
    assert_eq!(rt; write_whole(&mut sink, b"llo"), Ok(()));
    assert_eq!(rt; writer.journal.as_slice(), b"he|ll|o|".as_slice());
}

/// A writer of whose calls one refuses or takes nothing.
#[derive(Drop)]
enum Refusal {
    Write,
    Flush,
    Take,
}

impl Write for Refusal {
    fn write(&mut self, buf: &[u8]) -> io::Result<usize> {
        match self {
            Refusal::Write => Err(io::Error::from(io::ErrorKind::OutOfMemory)),
            Refusal::Flush => Ok(buf.len()),
            Refusal::Take => Ok(0),
        }
    }

    fn flush(&mut self) -> io::Result<()> {
        match self {
            Refusal::Flush => Err(io::Error::from(io::ErrorKind::StorageFull)),
            _ => Ok(()),
        }
    }
}

#[test]
fn each_refusal_of_a_stream_is_a_failure(rt: HostRuntime) {
    assert_eq!(rt; StreamSink::new(Refusal::Write).put(b"ab"), Err(Failed));
    assert_eq!(rt; StreamSink::new(Refusal::Flush).put(b"ab"), Err(Failed));
    assert_eq!(rt; StreamSink::new(Refusal::Take).put(b"ab"), Err(Failed));
    assert_eq!(rt;
        write_whole(&mut StreamSink::new(Refusal::Take), b"ab"),
        Err(WriteFault)
    );
}
