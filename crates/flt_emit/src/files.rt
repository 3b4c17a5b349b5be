//! Writes the writer's header and the file for the installation.

ghost use Rattle.flt_emit.specs.Files as spec;
ghost use Rattle.std.specs.Prelude.{◌≡◌, ◌++◌, flat_map, IfOk, OnOk};

use crate::fixed_files as fixed;
use crate::line::{Piece, text, texts, write};
use crate::names::major_name;
use flt_tree::{Callback, Filter, Head, Tree};
use std::alloc::{AllocError, Global};

fn deferred_default(out: &mut Vec<u8>, stage: &[u8], name: &[u8]) -> Result<(), AllocError>
    ensures { OnOk result (out.new.items ≡ out.old.items ++ spec.deferred_default stage.now name.now) }
{
    texts(
        out,
        &[
            b"#define USER_DEFERRED_",
            stage,
            name,
            b"( Data, Instance, Context ) ((VOID) (Data), (VOID) (Instance), (VOID) (Context))\n",
        ],
    )
}

fn generic_default(out: &mut Vec<u8>, name: &[u8]) -> Result<(), AllocError>
    ensures { OnOk result (out.new.items ≡ out.old.items ++ spec.generic_default name.now) }
{
    texts(
        out,
        &[
            b"#define USER_GENERIC_",
            name,
            b"( Instance, Context ) ((VOID) (Instance), (VOID) (Context))\n",
        ],
    )
}

/// A hook that does nothing.
fn hook_default(out: &mut Vec<u8>, head: &Head) -> Result<(), AllocError>
    ensures { OnOk result (out.new.items ≡ out.old.items ++ spec.hook_default head.now) }
{
    match head {
        Head::Pre(operation) => texts(
            out,
            &[
                b"#define USER_PRE_",
                major_name(*operation),
                b"( Data, FltObjects ) ((VOID) (Data), (VOID) (FltObjects))\n",
            ],
        ),
        Head::Post(operation) => texts(
            out,
            &[
                b"#define USER_POST_",
                major_name(*operation),
                b"( Data, FltObjects, Flags, Context ) ((VOID) (Data), (VOID) (FltObjects), (VOID) (Flags), (VOID) (Context))\n",
            ],
        ),
        Head::Canceled => text(
            out,
            b"#define USER_CANCELED( Data, Instance, Context ) ((VOID) (Data), (VOID) (Instance), (VOID) (Context))\n",
        ),
        Head::DeferredPre(name) => deferred_default(out, b"PRE_", name.as_slice()),
        Head::DeferredPost(name) => deferred_default(out, b"POST_", name.as_slice()),
        Head::Generic(name) => generic_default(out, name.as_slice()),
    }
}

fn hook_defaults(out: &mut Vec<u8>, mut found: &[Callback]) -> Result<(), AllocError>
    ensures { OnOk result (out.new.items ≡ out.old.items ++ spec.hook_defaults found.entry.now) }
{
    while let [first, rest @ ..] = found {
        hook_default(out, &first.head)?;
        found = rest;
    }
    Ok(())
}

/// The header that holds the writer's own part of a filter, with hooks that do nothing.
///
/// # Errors
///
/// `AllocError` if a growth is refused.
#[tactic(auto, unfolding(crate::specs::Files::user_header))]
pub fn emit_header(alloc: Global, tree: &Tree) -> Result<Vec<u8>, AllocError>
    ensures { IfOk result (λ text. text.items ≡ spec.user_header tree.now.filter) }
{
    let filter = &tree.filter;
    let name = filter.name.as_slice();
    let mut out = Vec::new(alloc);
    text(&mut out, b"/*\n *  ")?;
    text(&mut out, name)?;
    fixed::user_title(&mut out)?;
    text(&mut out, name)?;
    text(&mut out, b"`.\n")?;
    fixed::user_written(&mut out)?;
    hook_defaults(&mut out, filter.callbacks.as_slice())?;
    Ok(out)
}

/// The files that are copied.
#[tactic(auto, unfolding(crate::specs::Files::copying))]
fn copying(out: &mut Vec<u8>, filter: &Filter) -> Result<(), AllocError>
    ensures { OnOk result (out.new.items ≡ out.old.items ++ spec.copying filter.now) }
{
    let name = filter.name.as_slice();
    fixed::inf_head(out)?;
    text(out, name)?;
    fixed::inf_files(out)?;
    text(out, name)?;
    fixed::inf_copied(out)?;
    text(out, name)
}

/// The service.
#[tactic(auto, unfolding(crate::specs::Files::service))]
fn service(out: &mut Vec<u8>, filter: &Filter) -> Result<(), AllocError>
    ensures { OnOk result (out.new.items ≡ out.old.items ++ spec.service filter.now) }
{
    let name = filter.name.as_slice();
    fixed::inf_service(out)?;
    text(out, name)?;
    fixed::inf_shown(out)?;
    text(out, name)?;
    fixed::inf_binary(out)?;
    text(out, name)
}

/// The instance, which has the filter's name and altitude.
#[tactic(auto, unfolding(crate::specs::Files::instance_part))]
fn instance_part(out: &mut Vec<u8>, filter: &Filter) -> Result<(), AllocError>
    ensures { OnOk result (out.new.items ≡ out.old.items ++ spec.instance_part filter.now) }
{
    let name = filter.name.as_slice();
    fixed::inf_registered(out)?;
    text(out, name)?;
    fixed::inf_instance(out)?;
    text(out, name)?;
    fixed::inf_altitude(out)?;
    write(out, &[Piece::Number(filter.altitude)])
}

/// Its flags, and the strings.
#[tactic(auto, unfolding(crate::specs::Files::strings_part))]
fn strings_part(out: &mut Vec<u8>, filter: &Filter) -> Result<(), AllocError>
    ensures { OnOk result (out.new.items ≡ out.old.items ++ spec.strings_part filter.now) }
{
    let name = filter.name.as_slice();
    fixed::inf_flags(out)?;
    text(out, name)?;
    fixed::inf_strings(out)?;
    text(out, name)?;
    fixed::inf_end(out)
}

/// The file for the installation of a filter.
///
/// # Errors
///
/// `AllocError` if a growth is refused.
#[tactic(auto, unfolding(crate::specs::Files::installation))]
pub fn emit_installation(alloc: Global, tree: &Tree) -> Result<Vec<u8>, AllocError>
    ensures { IfOk result (λ text. text.items ≡ spec.installation tree.now.filter) }
{
    let filter = &tree.filter;
    let mut out = Vec::new(alloc);
    copying(&mut out, filter)?;
    service(&mut out, filter)?;
    instance_part(&mut out, filter)?;
    strings_part(&mut out, filter)?;
    Ok(out)
}
