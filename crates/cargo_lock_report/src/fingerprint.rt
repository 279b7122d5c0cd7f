//! By which a finding is known again.

ghost use Rattle.std.specs.Prelude.{◌≡◌};
ghost use Rattle.cargo_lock_parts.specs.Checksum.{digest_of};
ghost use Rattle.cargo_lock_report.specs.Reported as spec;

use crate::reported::Reported;
use cargo_lock_parts::package::Checksum;
use sha2::{Digest, Sha256};

/// The SHA-256 of what is the same of a finding in the next report: its rule, and the name and the
/// version of its package.
pub(crate) fn fingerprint(finding: &Reported) -> Checksum
    ensures { digest_of result ≡ spec.fingerprint finding.now }
{
    let mut hasher = Sha256::new();
    hasher.update(finding.rule.id.as_bytes());
    hasher.update(b"\n".as_slice());
    hasher.update(finding.name.as_bytes());
    hasher.update(b"\n".as_slice());
    hasher.update(finding.version.as_bytes());
    Checksum::from_bytes(hasher.finalize())
}
