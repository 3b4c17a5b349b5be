//! Notifications of diagnostics.

ghost use Rattle.std.specs.Prelude.{◌≡◌, ◌∷◌, ◌++◌, [], None, IfOk, OnOk, codes};
ghost use Rattle.json.specs.Token.{key, string};
ghost use Rattle.flt_server_session.specs.Outgoing as spec;

use crate::outgoing::let_json_out;
use json::Writer;
use std::alloc::{AllocError, Global};

/// The diagnostic of a document that isn't kept.
const DECLINED: &[u8] =
    b"[{\"range\":{\"start\":{\"line\":0,\"character\":0},\"end\":{\"line\":0,\"character\":0}},\"severity\":1,\"message\":\"1,000 documents are open: this one isn't analysed\"}]";

fn put_string(writer: &mut Writer, name: &str, text: &str) -> Result<(), AllocError>
    ensures before { writer.new.before ≡ writer.old.before }
    ensures put { OnOk result (writer.new.tokens ≡ writer.old.tokens ++ key name.now ∷ string text.now ∷ []) }
{
    writer.key(name)?;
    writer.string(text)
}

fn put_version(writer: &mut Writer, version: Option<i64>) -> Result<(), AllocError>
    ensures before { writer.new.before ≡ writer.old.before }
    ensures put { OnOk result (writer.new.tokens ≡ writer.old.tokens ++ spec.version_tokens version) }
{
    let Some(version) = version else {
        return Ok(());
    };
    writer.key("version")?;
    writer.i64(version)
}

/// All that comes before the diagnostics.
fn put_head(writer: &mut Writer, uri: &str, version: Option<i64>) -> Result<(), AllocError>
    ensures before { writer.new.before ≡ writer.old.before }
    ensures put { OnOk result (writer.new.tokens ≡ writer.old.tokens ++ spec.head_tokens uri.now version) }
{
    writer.begin_object()?;
    put_string(writer, "jsonrpc", "2.0")?;
    put_string(writer, "method", "textDocument/publishDiagnostics")?;
    writer.key("params")?;
    writer.begin_object()?;
    put_string(writer, "uri", uri)?;
    put_version(writer, version)?;
    writer.key("diagnostics")
}

/// The notification of what goes out of the diagnostics of a document, which are a JSON array.
pub(crate) fn published(
    alloc: Global,
    uri: &str,
    version: Option<i64>,
    diagnostics: &[u8],
) -> Result<Vec<u8>, AllocError>
    ensures { IfOk result (λ notice. spec.IsNoticeOf uri.now version diagnostics.now notice.items) }
{
    let shown = let_json_out(alloc, diagnostics)?;
    let mut writer = Writer::new(Vec::new(alloc));
    put_head(&mut writer, uri, version)?;
    let mut out = writer.into_inner();
    out.extend_from_slice(shown.as_slice())?;
    out.extend_from_slice(b"}}")?;
    Ok(out)
}

/// The notification that a document has no diagnostics.
pub(crate) fn cleared(alloc: Global, uri: &str) -> Result<Vec<u8>, AllocError>
    ensures { IfOk result (λ notice. spec.IsNoticeOf uri.now None (codes "[]") notice.items) }
{
    published(alloc, uri, None, b"[]")
}

/// The notification that too many documents are open to keep another.
pub(crate) fn declined(alloc: Global, uri: &str) -> Result<Vec<u8>, AllocError>
    ensures { IfOk result (λ notice. spec.IsNotice notice.items) }
{
    published(alloc, uri, None, DECLINED)
}
