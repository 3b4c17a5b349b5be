//! JSON as a session lets it out: each byte of its strings is shown.

ghost use Rattle.std.specs.Prelude.{◌≡◌, ◌≢◌, ◌∷◌, ◌++◌, [], List, IfOk, OnOk, string_bytes};
ghost use Rattle.flt_door.specs.Door.{at_door};
ghost use Rattle.flt_server_session.specs.Outgoing as spec;
ghost use Rattle.json.specs.Print.{IsPrintable};
ghost use Rattle.json.specs.Reads.{token_of};
ghost use Rattle.json.specs.Token.{Token as SpecToken};

use flt_door::{all_that_goes_out_is_shown, let_out};
use json::{Reader, Scratch, Token, Writer};
use std::alloc::{AllocError, Global};

/// Lets bytes out.
fn let_bytes_out(bytes: &mut Vec<u8>)
    ensures { bytes.new.items ≡ at_door bytes.old.items }
{
    let_out(bytes.as_mut_slice());
}

/// A string as it goes out.
fn shown_string(alloc: Global, text: &str) -> Result<String, AllocError>
    ensures { IfOk result (λ shown. spec.IsStringFor text.now (string_bytes shown)) }
{
    all_that_goes_out_is_shown();
    let mut bytes = Vec::from_slice(alloc, text.as_bytes())?;
    let_bytes_out(&mut bytes);
    match String::from_utf8(bytes) {
        Ok(shown) => Ok(shown),
        Err(_) => Ok(String::new(alloc)),
    }
}

/// Writes a token as it goes out.
fn put_token(alloc: Global, writer: &mut Writer, token: Token<'_>) -> Result<(), AllocError>
    requires { IsPrintable (token_of token) }
    ensures before { writer.new.before ≡ writer.old.before }
    ensures put { OnOk result ((out : SpecToken) × spec.IsTokenFor (token_of token.entry) out
        × (writer.new.tokens ≡ writer.old.tokens ++ out ∷ [])) }
{
    match token {
        Token::Key(text) => {
            let shown = shown_string(alloc, text)?;
            writer.key(shown.as_str())
        }
        Token::String(text) => {
            let shown = shown_string(alloc, text)?;
            writer.string(shown.as_str())
        }
        _ => writer.token(token),
    }
}

/// Writes all tokens of a reader as they go out.
fn put_tokens(alloc: Global, writer: &mut Writer, reader: &mut Reader<'_>) -> Result<(), AllocError>
    ensures before { writer.new.before ≡ writer.old.before }
    ensures put { OnOk result ((out : List SpecToken) × spec.AreTokensFor reader.old out × spec.AreShownTokens out
        × (writer.new.tokens ≡ writer.old.tokens ++ out)) }
{
    while let Some(token) = reader.next() {
        if let Token::Bad = token {
            return Ok(());
        }
        put_token(alloc, writer, token)?;
    }
    Ok(())
}

/// A text that is JSON, as it goes out.
fn shown_json(alloc: Global, text: &str) -> Result<Vec<u8>, AllocError>
    ensures { IfOk result (λ out. spec.GoesOut text.now out.items) }
{
    let mut scratch = Scratch::new(alloc);
    let mut reader = Reader::new(text, &mut scratch)?;
    let mut writer = Writer::new(Vec::new(alloc));
    put_tokens(alloc, &mut writer, &mut reader)?;
    Ok(writer.into_inner())
}

/// JSON as it goes out: of each string its bytes as the door lets them out. Nothing goes out of bytes that aren't UTF-8, nor from the first
/// byte on at which they are no JSON.
pub(crate) fn let_json_out(alloc: Global, json: &[u8]) -> Result<Vec<u8>, AllocError>
    ensures { IfOk result (λ out. spec.GoesOut json.now out.items) }
{
    match std::str::from_utf8(json) {
        Ok(text) => shown_json(alloc, text),
        Err(_) => Ok(Vec::new(alloc)),
    }
}
