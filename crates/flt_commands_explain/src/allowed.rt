//! The options for warnings, from the words of `explain`.

ghost use Rattle.std.specs.Prelude.{◌≡◌, map};
ghost use Rattle.flt_commands_explain.specs.Allowed as spec;
ghost use Rattle.flt_words.specs.Request.{choice_of};

use flt_explain_warning_details::WarningOptions;
use flt_explain_warnings::{AllowedKinds, kind_named};
use flt_words::WarningChoice;

/// These kinds, and the one of a name.
fn with_named(kinds: AllowedKinds, name: &str) -> AllowedKinds
    ensures { result ≡ spec.with_named kinds name.now }
{
    match kind_named(name.as_bytes()) {
        Some(kind) => kinds.with(kind),
        None => kinds,
    }
}

/// The kinds of some names.
fn kinds_of(names: &[&str]) -> AllowedKinds
    ensures { result ≡ spec.kinds_of (map (λ name. name.now) names.now) }
{
    let mut kinds = AllowedKinds::none();
    for name in names {
        kinds = with_named(kinds, name);
    }
    kinds
}

/// The options for warnings, from a choice in the words of `explain`.
pub fn options_of(choice: &WarningChoice<'_>) -> WarningOptions
    ensures { result ≡ spec.options_of (choice_of choice.now) }
{
    WarningOptions {
        allowed: kinds_of(choice.allowed.as_slice()),
        is_strict: choice.is_strict,
    }
}
