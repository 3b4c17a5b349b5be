//! Certificates from their text, in either format.

ghost use Rattle.std.specs.Prelude.{◌≡◌, IsTrue, IfOk, MatchResult};
ghost use Rattle.flt_cert.specs.Spelling as spec;
ghost use Rattle.flt_cert.specs.declared.cert.Cert.{Cert as AnyCert};

use crate::cert::Cert;
use crate::fault::CertFault;
use crate::fields::begins_thin;
use crate::full_reader::read_full;
use crate::thin_reader::read_thin;
use std::alloc::Global;

/// The certificate that all of the bytes spell. The first line determines the format.
pub fn read(alloc: Global, bytes: &[u8]) -> Result<Cert, CertFault>
    // What is read is spelled so.
    ensures spelled { IfOk result (λ cert. bytes.now ≡ spec.spelling cert) }
    ensures certificate { IfOk result (λ cert. IsTrue (spec.is_cert cert)) }
    // What is spelled so is read, unless memory runs out.
    ensures read { (c : AnyCert) → IsTrue (spec.is_cert c) → bytes.now ≡ spec.spelling c →
        MatchResult result (λ cert. cert ≡ c) (λ e. e ≡ CertFault.OutOfMemory) }
    // A fault names the first malformed line.
    ensures fault { MatchResult result (λ _. Unit {0}) (λ e. spec.IsFaultOf bytes.now e) }
{
    if begins_thin(bytes) {
        match read_thin(alloc, bytes) {
            Ok(thin) => Ok(Cert::Thin(thin)),
            Err(fault) => Err(fault),
        }
    } else {
        match read_full(alloc, bytes) {
            Ok(full) => Ok(Cert::Full(full)),
            Err(fault) => Err(fault),
        }
    }
}
