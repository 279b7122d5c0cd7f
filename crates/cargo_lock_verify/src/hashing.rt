//! The SHA-256 of what a reader has.

ghost use Rattle.std.specs.Prelude.{IfOk};
ghost use Rattle.cargo_lock_verify.specs.Reading.{AddsBytes, IsDigestOfRest};

use cargo_lock_parts::package::Checksum;
use sha2::{Digest, Sha256};
use std::io::{self, ErrorKind, Read};

// How many bytes are read at once.
const PIECE: usize = 16_384;

/// The SHA-256 of the bytes that the reader has left, which are read to their end, piece by piece.
/// An error of the reader is returned, but for an interrupted read, which is tried again.
///
/// ```
/// let mut file = OpenOptions::new().read(true).open(rt, Path::new(path))?;
/// let digest = digest(&mut file)?;
/// ```
pub fn digest<R: Read>(reader: &mut R) -> io::Result<Checksum>
    ensures { IfOk result (IsDigestOfRest (R.remaining reader.old)) }
{
    let mut hasher = Sha256::new();
    for _ in 0..u64::MAX {
        if add_piece(&mut hasher, reader)? {
            return Ok(Checksum::from_bytes(hasher.finalize()));
        }
    }
    Err(io::Error::from(ErrorKind::FileTooLarge))
}

// Adds a piece of what the reader has left. Returns whether nothing was left.
fn add_piece<R: Read>(hasher: &mut Sha256, reader: &mut R) -> io::Result<bool>
    ensures { IfOk result
        (AddsBytes hasher.old (R.remaining reader.old) hasher.new (R.remaining reader.new)) }
{
    let mut piece = [0; PIECE];
    match reader.read(&mut piece) {
        Ok(count) => {
            hasher.update(&piece[..count]);
            Ok(count == 0)
        }
        Err(fault) if fault.kind() == ErrorKind::Interrupted => Ok(false),
        Err(fault) => Err(fault),
    }
}
