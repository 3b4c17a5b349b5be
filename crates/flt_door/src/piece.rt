//! The first piece of some bytes, and whether it passes.

ghost use Rattle.std.specs.Prelude.{◌≡◌, ◌<◌, ◌≤◌, IsTrue, length};
ghost use Rattle.flt_door.specs.Door as spec;
ghost use Rattle.flt_shown.specs.Shown.{begins as begins_with, begins_any, character as character_of};

use crate::character::{begins, character};

/// Whether bytes begin with `ESC[0m` or `ESC[1m`.
fn is_bold_sign(bytes: &[u8]) -> bool
    ensures value { result ≡ begins_any spec.bold_signs bytes.now }
    ensures fits { IsTrue result → 4 ≤ length bytes.now }
{
    begins(bytes, &[(27, 27), (91, 91), (48, 49), (109, 109)])
}

/// Whether bytes begin with one of the colours.
fn is_colour(bytes: &[u8]) -> bool
    ensures value { result ≡ begins_any spec.colours bytes.now }
    ensures fits { IsTrue result → 7 ≤ length bytes.now }
{
    begins(
        bytes,
        &[
            (27, 27),
            (91, 91),
            (49, 49),
            (59, 59),
            (51, 51),
            (49, 49),
            (109, 109),
        ],
    ) || begins(
        bytes,
        &[
            (27, 27),
            (91, 91),
            (49, 49),
            (59, 59),
            (51, 51),
            (51, 52),
            (109, 109),
        ],
    )
}

/// How many bytes the first piece has after its first one, and whether it passes.
pub(crate) fn piece(bytes: &[u8]) -> (usize, bool)
    requires { 0 < length bytes.now }
    ensures value { result ≡ spec.piece bytes.now }
    ensures within { result.0 < length bytes.now }
{
    if begins(bytes, &[(10, 10)]) {
        (0, true)
    } else if is_bold_sign(bytes) {
        (3, true)
    } else if is_colour(bytes) {
        (6, true)
    } else {
        character(bytes)
    }
}
