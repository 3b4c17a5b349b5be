//! The capabilities of the server, as its response to `initialize` lists them.

use crate::language::Encoding;

const UTF8: &[u8] =
    b"{\"capabilities\":{\"positionEncoding\":\"utf-8\",\"textDocumentSync\":{\"openClose\":true,\"change\":1},\"hoverProvider\":true,\"completionProvider\":{},\"definitionProvider\":true,\"referencesProvider\":true,\"documentSymbolProvider\":true,\"foldingRangeProvider\":true,\"codeActionProvider\":{\"codeActionKinds\":[\"quickfix\"]},\"executeCommandProvider\":{\"commands\":[\"fltstack.explain\"]}},\"serverInfo\":{\"name\":\"fltstack\"}}";

const UTF16: &[u8] =
    b"{\"capabilities\":{\"positionEncoding\":\"utf-16\",\"textDocumentSync\":{\"openClose\":true,\"change\":1},\"hoverProvider\":true,\"completionProvider\":{},\"definitionProvider\":true,\"referencesProvider\":true,\"documentSymbolProvider\":true,\"foldingRangeProvider\":true,\"codeActionProvider\":{\"codeActionKinds\":[\"quickfix\"]},\"executeCommandProvider\":{\"commands\":[\"fltstack.explain\"]}},\"serverInfo\":{\"name\":\"fltstack\"}}";

/// The result of `initialize`: texts are sent whole, and columns are counted in this encoding.
pub(crate) fn capabilities(encoding: Encoding) -> &'static [u8] {
    match encoding {
        Encoding::Utf8 => UTF8,
        Encoding::Utf16 => UTF16,
    }
}
