//! Octets that are read and written, one by one.

ghost use Rattle.std.specs.Prelude.{◌≤◌, IfOk};

use octet_io::{CountedReader, CountedWriter, ReadFault, WriteFault};
use std::io;
use std::io::{ErrorKind, Read, Write};

/// A step of a reader or a writer: an octet, an interruption, a failure, or nothing.
#[derive(Clone, Copy)]
enum Step {
    Octet,
    Interruption,
    Failure,
    Nothing,
}

/// A reader and a writer that goes these steps, and then takes and gives nothing more.
#[derive(Drop)]
struct Stepping<'a> {
    steps: &'a [Step],
    written: &'a mut Vec<u8>,
}

impl Stepping<'_> {
    /// What comes of the next step, of so many octets at most.
    fn next(&mut self, most: usize) -> io::Result<usize>
        ensures { IfOk result (λ count. count ≤ most) }
    {
        let Some((step, rest)) = self.steps.split_first() else {
            return Ok(0);
        };
        self.steps = rest;
        match step {
            Step::Octet => Ok(most.min(1)),
            Step::Interruption => Err(ErrorKind::Interrupted.into()),
            Step::Failure => Err(ErrorKind::BrokenPipe.into()),
            Step::Nothing => Ok(0),
        }
    }
}

impl Read for Stepping<'_> {
    fn read(&mut self, buffer: &mut [u8]) -> io::Result<usize> {
        let count = self.next(buffer.len())?;
        buffer[..count].fill(b'x');
        Ok(count)
    }
}

impl Write for Stepping<'_> {
    fn write(&mut self, octets: &[u8]) -> io::Result<usize> {
        let count = self.next(octets.len())?;
        self.written.extend_from_slice(&octets[..count])?;
        Ok(count)
    }

    fn flush(&mut self) -> io::Result<()> {
        Ok(())
    }
}

/// A reader may go on after a failure, and after its end.
#[test]
fn each_read_is_told(rt: HostRuntime) {
    let mut unused = Vec::new(rt.alloc());
    let mut reader = CountedReader::make(Stepping {
        steps: &[
            Step::Octet,
            Step::Interruption,
            Step::Nothing,
            Step::Failure,
            Step::Octet,
        ],
        written: &mut unused,
    });
    let mut buffer = [b'-'; 3];
    for told in [
        Ok(Some(1)),
        Ok(Some(0)),
        Ok(None),
        Err(ReadFault),
        Ok(Some(1)),
        Ok(None),
    ] {
        assert_eq!(rt; reader.read(&mut buffer), told);
    }
    assert_eq!(rt; buffer, *b"x--");
}

/// A writer may go on after a failure.
#[test]
fn all_octets_are_written_or_a_front(rt: HostRuntime) {
    let mut written = Vec::new(rt.alloc());
    let mut writer = CountedWriter::make(Stepping {
        steps: &[
            Step::Octet,
            Step::Interruption,
            Step::Octet,
            Step::Octet,
            Step::Octet,
            Step::Failure,
            Step::Nothing,
            Step::Octet,
        ],
        written: &mut written,
    });
    for (octets, told) in [
        (b"".as_slice(), Ok(())),
        (b"abc".as_slice(), Ok(())),
        (b"de".as_slice(), Err(WriteFault { sent: 1 })),
        (b"fg".as_slice(), Err(WriteFault { sent: 0 })),
        (b"hi".as_slice(), Err(WriteFault { sent: 1 })),
    ] {
        assert_eq!(rt; writer.write_all(octets), told);
    }
    drop(writer);
    assert_eq!(rt; written.as_slice(), b"abcdh".as_slice());
}
