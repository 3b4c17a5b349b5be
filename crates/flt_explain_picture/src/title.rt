//! The title above a picture: the filters by name, and the verdict as `replay` says it.

ghost use Rattle.std.specs.Prelude.{◌≡◌, ◌<◌, IfOk, map, string_bytes};
ghost use Rattle.flt_model.specs.Program.{filters_of};
ghost use Rattle.flt_explain_picture.specs.Pictures.{Puts};
ghost use Rattle.flt_explain_picture.specs.Titles as spec;

use flt_model::{Verdict, Violation};
use flt_tree::Tree;
use std::alloc::{AllocError, Global};
use std::fmt::Write;

/// The violation, in words.
pub(crate) fn broken_words(violation: Violation) -> &'static str
    ensures { result.now ≡ spec.broken_words violation }
{
    match violation {
        Violation::V1 => "stale use",
        Violation::V2 => "a leak",
        Violation::V3 => "settled twice",
        Violation::V4 => "not one owner",
        Violation::V5 => "a status that isn't legal",
        Violation::V6 => "above its level",
        Violation::V7 => "lock discipline",
        Violation::V8 => "not at this place",
    }
}

/// A byte of a name; `?` for one that isn't printed.
pub(crate) fn shown(byte: u8) -> u8
    ensures value { result ≡ spec.shown byte }
    ensures ascii { result < 128 }
{
    if byte.is_ascii_graphic() { byte } else { b'?' }
}

fn put_name(out: &mut String, name: &[u8]) -> Result<(), AllocError>
    ensures { Puts result (string_bytes out.old) (string_bytes out.new) (map spec.shown name.now) }
{
    for byte in name {
        out.push(shown(*byte) as char)?;
    }
    Ok(())
}

/// Writes the names of filters, in the order of their texts.
fn put_names(out: &mut String, trees: &[Tree]) -> Result<(), AllocError>
    ensures { Puts result (string_bytes out.old) (string_bytes out.new) (spec.names (filters_of trees.now)) }
{
    let Some((first, rest)) = trees.split_first() else {
        return Ok(());
    };
    put_name(out, first.filter.name.as_slice())?;
    for tree in rest {
        out.push_str(", ")?;
        put_name(out, tree.filter.name.as_slice())?;
    }
    Ok(())
}

/// The title of a picture.
#[tactic(auto, unfolding(crate::specs::Titles::title_of))]
pub(crate) fn title_of(
    alloc: Global,
    trees: &[Tree],
    verdict: Verdict,
) -> Result<String, AllocError>
    ensures { IfOk result (λ title. string_bytes title ≡ spec.title_of (filters_of trees.now) verdict) }
{
    let mut out = String::new(alloc);
    put_names(&mut out, trees)?;
    out.push_str(": ")?;
    write!(out, "{verdict}")?;
    Ok(out)
}
