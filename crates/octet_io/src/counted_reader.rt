//! A reader, and what came of its reads.

ghost use Rattle.std.specs.Prelude.{◌≡◌, ◌≢◌, ◌<◌, ◌≤◌, ◌⊎◌, ◌==◌, if◌then◌else◌, None, Some, length, take, IfErr, IfNone, IfOk, IfSome, IsErr, OnErr};
ghost use Rattle.std.specs.IoError.{error_kind};
ghost use Rattle.octet_io.specs.Reads.{Fails, Gives, TellsEnd, most_reads, unread};

use std::io;
use std::io::{ErrorKind, Read};
use std::marker::Model;

/// How often a reader is asked at most: 2^40 times.
pub const MOST_READS: u64 = 1 << 40;

/// A read failed, or all the reads that may be made were made.
#[derive(Debug, Clone, Copy, PartialEq, Eq)]
pub struct ReadFault;

/// A reader that counts its reads, those that failed, and those that told its end, so that a contract can say of what was told above
/// that a read told it.
#[derive(Drop)]
pub struct CountedReader<R> {
    reader: R,
    reads: u64,
    failures: u64,
    ends: u64,
    // How many octets the last read gave.
    came: usize,
}

impl<R> Model for CountedReader<R> {
    ghost use Rattle.std.specs.Prelude.{◌+◌, ◌≤◌};
    ghost use Rattle.octet_io.specs.Reads.{Reads, most_reads, reads_code};

    ghost Value = { Reads R };

    ghost coded = { reads_code R.code };

    ghost view = { λ r. record { reader = r.reader; reads = r.reads; failures = r.failures; ends = r.ends; came = r.came } };

    ghost invariant = { λ r. (r.failures + r.ends ≤ r.reads) × (r.reads ≤ most_reads) };
}

impl<R: Read> CountedReader<R> {
    /// A reader of which no read was made.
    pub fn make(reader: R) -> CountedReader<R>
        ensures { result ≡ unread reader }
    {
        CountedReader {
            reader,
            reads: 0,
            failures: 0,
            ends: 0,
            came: 0,
        }
    }

    /// Reads once, into a buffer with room, and says how many octets came: 0 if the read was interrupted, and may be made again; none at the
    /// reader's end. An `Err` if the read failed, or all reads were made.
    pub fn read(&mut self, buffer: &mut [u8]) -> Result<Option<usize>, ReadFault>
        requires { 0 < length buffer.old }
        ensures gives { IfOk result (λ told. IfSome told (λ count. (count ≤ length buffer.new) × Gives R.remaining self.old self.new (take count buffer.new))) }
        ensures end { IfOk result (λ told. IfNone told (TellsEnd R.remaining self.old self.new)) }
        ensures fault { OnErr result (((self.new ≡ self.old) × (self.old.reads ≡ most_reads)) ⊎ Fails R.remaining self.old self.new) }
        ensures most { self.new.reads ≤ most_reads }
    {
        if self.reads == MOST_READS {
            return Err(ReadFault);
        }
        self.reads += 1;
        self.came = 0;
        let told = told_by(self.reader.read(buffer));
        match told {
            Ok(Some(count)) => self.came = count,
            Ok(None) => self.ends += 1,
            Err(ReadFault) => self.failures += 1,
        }
        told
    }
}

/// What a read told: its end, if it gave no octet; nothing, if it was interrupted. Any other failure is a fault.
fn told_by(read: io::Result<usize>) -> Result<Option<usize>, ReadFault>
    ensures octets { IfOk read (λ count. result ≡ Ok (if count == 0 then None else Some count)) }
    ensures again { IfErr read (λ error. error_kind error ≡ ErrorKind.Interrupted → result ≡ Ok (Some 0)) }
    ensures fault { IfErr read (λ error. error_kind error ≢ ErrorKind.Interrupted → IsErr result) }
{
    match read {
        Ok(0) => Ok(None),
        Ok(count) => Ok(Some(count)),
        Err(error) if error.kind() == ErrorKind::Interrupted => Ok(Some(0)),
        Err(_) => Err(ReadFault),
    }
}
