//! Options for warnings, and the exit status that results.

ghost use Rattle.std.specs.Prelude.{◌≡◌, count_by};
ghost use Rattle.flt_explain_warning_details.specs.Options as spec;

use crate::detail::WarningDetail;
use flt_explain::Finding;
use flt_explain_warnings::AllowedKinds;

/// A caller's options for warnings.
#[derive(Clone, Copy)]
pub struct WarningOptions {
    /// The kinds that are left out.
    pub allowed: AllowedKinds,
    /// Whether a warning makes the exit status 1.
    pub is_strict: bool,
}

/// The number of warnings that no comment allows.
pub fn shown_count(details: &[WarningDetail]) -> usize
    ensures { result ≡ spec.shown_count details.now }
{
    let mut count: usize = 0;
    for detail in details {
        if detail.is_shown() {
            count += 1;
        }
    }
    count
}

/// The exit status of a text: 1 if there are findings, or if `is_strict` and there is a warning that no comment allows; else 0.
pub fn warned_status(is_strict: bool, found: &[Finding], details: &[WarningDetail]) -> u8
    ensures { result ≡ spec.warned_status is_strict found.now details.now }
{
    match found {
        [] => {
            if is_strict && shown_count(details) != 0 {
                1
            } else {
                0
            }
        }
        [_, ..] => 1,
    }
}
