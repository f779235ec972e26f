//! A writer, and what came of its writes.

ghost use Rattle.std.specs.Prelude.{◌≡◌, ◌≢◌, ◌<◌, ◌≤◌, ◌⊎◌, ◌==◌, if◌then◌else◌, None, Some, length, take, IfErr, IfNone, IfOk, IfSome, OnOk};
ghost use Rattle.std.specs.IoError.{error_kind};
ghost use Rattle.octet_io.specs.Writes.{Refuses, Sends, SendsFront, Takes, most_writes, unwritten};

use std::io;
use std::io::{ErrorKind, Write};
use std::marker::Model;

/// How often a writer is asked at most: 2^60 times.
pub const MOST_WRITES: u64 = 1 << 60;

/// A write failed, or took no octet, or all the writes that may be made were made. So many octets went out before, fewer than were to go.
#[derive(Debug, Clone, Copy, PartialEq, Eq)]
pub struct WriteFault {
    pub sent: usize,
}

/// A writer that counts its writes, and those that failed, so that a contract can say of what was told above that a write failed.
#[derive(Drop)]
pub struct CountedWriter<W> {
    writer: W,
    writes: u64,
    failures: u64,
}

impl<W> Model for CountedWriter<W> {
    ghost use Rattle.std.specs.Prelude.{◌≤◌};
    ghost use Rattle.octet_io.specs.Writes.{Writes, most_writes, writes_code};

    ghost Value = { Writes W };

    ghost coded = { writes_code W.code };

    ghost view = { λ w. record { writer = w.writer; writes = w.writes; failures = w.failures } };

    ghost invariant = { λ w. (w.failures ≤ w.writes) × (w.writes ≤ most_writes) };
}

impl<W: Write> CountedWriter<W> {
    /// A writer to which no write was made.
    pub fn make(writer: W) -> CountedWriter<W>
        ensures { result ≡ unwritten writer }
    {
        CountedWriter {
            writer,
            writes: 0,
            failures: 0,
        }
    }

    /// Writes all these octets, in as many writes as it takes; one that was interrupted is made again.
    pub fn write_all(&mut self, octets: &[u8]) -> Result<(), WriteFault>
        ensures ok { OnOk result (Sends W.contents self.old self.new octets.now) }
        ensures fault { IfErr result (λ fault. SendsFront W.contents self.old self.new octets.now fault.sent) }
    {
        let mut sent = 0;
        'writes: while sent < octets.len() {
            let Some(count) = self.write(&octets[sent..]) else {
                return Err(WriteFault { sent });
            };
            sent += count;
        }
        Ok(())
    }

    /// Writes once, of octets of which there are some, and says how many were taken: 0 if the write was interrupted; none if it failed or took
    /// no octet, or all writes were made.
    fn write(&mut self, octets: &[u8]) -> Option<usize>
        requires { 0 < length octets.now }
        ensures takes { IfSome result (λ count. (count ≤ length octets.now) × Takes W.contents self.old self.new (take count octets.now)) }
        ensures refuses { IfNone result (((self.new ≡ self.old) × (self.old.writes ≡ most_writes)) ⊎ Refuses W.contents self.old self.new) }
        ensures most { self.new.writes ≤ most_writes }
    {
        if self.writes == MOST_WRITES {
            return None;
        }
        self.writes += 1;
        let taken = taken_by(self.writer.write(octets));
        if taken.is_none() {
            self.failures += 1;
        }
        taken
    }
}

/// How many octets a write took: 0 if it was interrupted; none if it took none, or failed otherwise.
fn taken_by(write: io::Result<usize>) -> Option<usize>
    ensures octets { IfOk write (λ count. result ≡ (if count == 0 then None else Some count)) }
    ensures again { IfErr write (λ error. error_kind error ≡ ErrorKind.Interrupted → result ≡ Some 0) }
    ensures fault { IfErr write (λ error. error_kind error ≢ ErrorKind.Interrupted → result ≡ None) }
{
    match write {
        Ok(0) => None,
        Ok(count) => Some(count),
        Err(error) if error.kind() == ErrorKind::Interrupted => Some(0),
        Err(_) => None,
    }
}
