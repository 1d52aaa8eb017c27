//! Opens files by their names, and reads them.
ghost use Rattle.std.specs.Prelude.{◌≡◌, ◌⊎◌, ◌+◌, ◌<◌, ◌≤◌, ℕ, List, Some, true, IfOk, IfErr, IfSome, IsTrue};
ghost use Rattle.trace.specs.Streams.{given_by, Stays};
ghost use Rattle.program.specs.Faults.{IsUnreadable, failed_reads};
ghost use Rattle.program.specs.Files.{KnownFile, IsOpened, IsFront, document_bytes, unknown_file};

use crate::fault::RunFault;
use crate::notes::Notes;
use std::alloc::Global;
use std::fs::{self, Files};
use std::io;
use trace::{PlayFault, ReadSource, Source};

/// Limit on the bytes of a configuration that are read: one more than it may have.
pub const DOCUMENT_BYTES: usize = 65537;

/// The bytes of a source that are asked for at a time.
const PIECE: usize = 4096;

/// Opens the files that the words name.
pub trait Opener {
    /// A source of a file's bytes.
    type File: Source + Drop;

    /// The bytes and failures that contracts know of the file of each name.
    ghost known: { Self → List ℕ → KnownFile };

    /// Opens the file of this name as a source, from its beginning.
    fn open(&self, name: &str) -> io::Result<Self::File>
        ensures opened { IfOk result (IsOpened Self.File.given Self.File.failures Self.File.input
            (known self.now name.now)) }
        ensures failed { IfErr result (λ _. IsTrue (known self.now name.now).failed) };
}

/// The files of the machine.
#[derive(Clone, Copy, Drop)]
pub struct HostFiles<'a, R: Files> {
    pub host: &'a R,
}

impl<'a, R: Files> Opener for HostFiles<'a, R> {
    type File = ReadSource<R::File>;

    // No contract knows the bytes of a file of the machine, or whether it can be read.
    ghost known = { λ _ _. unknown_file };

    fn open(&self, name: &str) -> io::Result<ReadSource<R::File>> {
        Ok(ReadSource::new(fs::open(self.host, name)?))
    }
}

/// Opens the file of this name as a source. If that fails, notes the system's error.
pub fn open_file<O: Opener>(opener: &O, name: &str, notes: &mut Notes) -> Result<O::File, RunFault>
    ensures opened { IfOk result (IsOpened O.File.given O.File.failures O.File.input
        (O.known opener.now name.now)) }
    ensures err { IfErr result (IsUnreadable (O.known opener.now name.now).failed) }
{
    match opener.open(name) {
        Ok(file) => Ok(file),
        Err(error) => {
            notes.error = Some(error);
            Err(RunFault::Text(PlayFault::Read))
        }
    }
}

/// Returns how many bytes to ask for next, once `read` bytes are read of at most `most` in all.
fn next_piece(most: Option<usize>, read: usize) -> usize
    ensures piece { result ≤ 4096 }
    ensures within { IfSome most (λ n. read ≤ n → read + result ≤ n) }
    ensures full { (0 < result) ⊎ ((n : ℕ) × (most ≡ Some n) × (n ≤ read)) }
{
    match most {
        Some(most) => PIECE.min(most.saturating_sub(read)),
        None => PIECE,
    }
}

/// Reads the rest of a source: all its bytes, or at most `most`.
pub fn read_bytes<S: Source>(
    alloc: Global,
    source: &mut S,
    most: Option<usize>,
) -> Result<Vec<u8>, RunFault>
    ensures front { IfOk result (λ bytes. IsFront most (given_by S.given S.ended source.old source.new) bytes.items) }
    ensures unread { IfErr result (IsUnreadable true) }
    ensures reads { S.failures source.new ≡ S.failures source.old + failed_reads result }
    ensures input { failed_reads result ≡ 0 → Stays (S.input source.old) (S.input source.new) }
{
    let mut bytes = Vec::new(alloc);
    let mut piece = [0; PIECE];
    loop {
        let next = next_piece(most, bytes.len());
        let Ok(count) = source.read(&mut piece[..next]) else {
            return Err(RunFault::Text(PlayFault::Read));
        };
        if count == 0 {
            return Ok(bytes);
        }
        if bytes.extend_from_slice(&piece[..count]).is_err() {
            return Err(RunFault::Text(PlayFault::NoMemory));
        }
    }
}

/// Reads the bytes of a configuration, at most `DOCUMENT_BYTES`. Notes the system's error if its file can't be opened or
/// read.
pub fn read_document<O: Opener>(
    alloc: Global,
    opener: &O,
    name: &str,
    notes: &mut Notes,
) -> Result<Vec<u8>, RunFault>
    ensures bytes { IfOk result (λ bytes. IfSome (O.known opener.now name.now).bytes
        (λ all. bytes.items ≡ document_bytes all)) }
    ensures err { IfErr result (IsUnreadable (O.known opener.now name.now).failed) }
{
    let mut file = open_file(opener, name, notes)?;
    let read = read_bytes(alloc, &mut file, Some(DOCUMENT_BYTES));
    notes.error = file.error();
    read
}
