//! Why a text is no JSON that is read.
ghost use Rattle.std.specs.Prelude.{◌≡◌, ◌++◌, IfOk, OnOk, map, string_bytes};
ghost use Rattle.json.specs.Lex.{tokens};
ghost use Rattle.json.specs.Reads.{token_of};
ghost use Rattle.aud_refusals.specs.NoJson.{bytes_front, depth_after, depth_of, fault_in, is_json, no_d, no_json, no_json_text, read_from, token_front};

use crate::opened::fields_of;
use crate::token_place::begin_of_token;
use json::{Reader, Scratch, Token};
use std::alloc::{AllocError, Global};

/// How deep the lists and objects of a text may nest.
const MAX_DEPTH: usize = 127;

/// Why a text is no JSON (RFC 8259) that `serde_json` reads. Bytes count from 0.
#[derive(Clone, Copy, Drop)]
pub enum NoJson {
    /// Its lists and objects nest so deep.
    Deep(usize),
    /// The text in quotes that begins at this byte has half of a surrogate pair.
    HalfPair(usize),
    /// The number that begins at this byte is past all 64-bit floats.
    Number(usize),
    /// The text in quotes that begins at this byte doesn't end, or holds what none may hold.
    Quoted(usize),
    /// The word that begins at this byte is no value.
    Word(usize),
    /// What begins at this byte may not stand there, or what stands between it and the token before.
    Sign(usize),
    /// Each of its tokens is one and stands where it may, but together they are no value.
    Unmatched,
}

/// Whether the bytes are JSON that is read.
#[tactic(auto, using(crate::proofs::TextsLemmas::same_some))]
pub(crate) fn is_json(alloc: Global, bytes: &[u8]) -> Result<bool, AllocError>
    ensures { IfOk result (λ is. is ≡ is_json bytes.now) }
{
    let mut scratch = aud_json::Scratch::new(alloc);
    let found = fields_of(alloc, &mut scratch, bytes)?;
    Ok(found.is_some())
}

/// How many lists and objects are open after a token.
fn depth_after(depth: usize, token: &Token<'_>) -> usize
    ensures { result ≡ depth_after depth (token_of token.now) }
{
    match token {
        Token::BeginObject | Token::BeginArray => depth.saturating_add(1),
        Token::EndObject | Token::EndArray => depth.saturating_sub(1),
        Token::Key(_)
        | Token::String(_)
        | Token::Number(_)
        | Token::Bool(_)
        | Token::Null
        | Token::Bad => depth,
    }
}

/// How deep the lists and objects of a text nest.
fn depth_of(alloc: Global, text: &str) -> Result<usize, AllocError>
    ensures { IfOk result (λ depth. depth ≡ depth_of text.now) }
{
    let mut scratch = Scratch::new(alloc);
    let mut reader = Reader::new(text, &mut scratch)?;
    let mut most = 0;
    let mut depth = 0;
    'tokens: while let Some(token) = reader.next() {
        depth = depth_after(depth, &token);
        most = most.max(depth);
    }
    Ok(most)
}

/// What bytes begin with.
#[derive(Clone, Copy, Drop)]
pub enum Front {
    End,
    /// A token that is read.
    Good,
    /// A number past all 64-bit floats.
    Huge,
    /// No token.
    Bad,
}

fn token_front(alloc: Global, token: &Token<'_>) -> Result<Front, AllocError>
    ensures { IfOk result (λ front. front ≡ token_front (token_of token.now)) }
{
    match token {
        Token::Number(text) => {
            if is_json(alloc, text.as_bytes())? {
                Ok(Front::Good)
            } else {
                Ok(Front::Huge)
            }
        }
        Token::Bad => Ok(Front::Bad),
        Token::BeginObject
        | Token::EndObject
        | Token::BeginArray
        | Token::EndArray
        | Token::Key(_)
        | Token::String(_)
        | Token::Bool(_)
        | Token::Null => Ok(Front::Good),
    }
}

/// How many tokens stand before the first that is not read.
fn tokens_read(alloc: Global, text: &str) -> Result<usize, AllocError>
    ensures { IfOk result (λ count. count ≡ read_from 0 (tokens text.now)) }
{
    let mut scratch = Scratch::new(alloc);
    let mut reader = Reader::new(text, &mut scratch)?;
    let mut count = 0usize;
    'tokens: while let Some(token) = reader.next() {
        match token_front(alloc, &token)? {
            Front::Good => count = count.saturating_add(1),
            Front::End | Front::Huge | Front::Bad => return Ok(count),
        }
    }
    Ok(count)
}

fn bytes_front(alloc: Global, bytes: &[u8]) -> Result<Front, AllocError>
    ensures { IfOk result (λ front. front ≡ bytes_front bytes.now) }
{
    let Ok(text) = str::from_utf8(bytes) else {
        return Ok(Front::Bad);
    };
    let mut scratch = Scratch::new(alloc);
    let mut reader = Reader::new(text, &mut scratch)?;
    match reader.next() {
        Some(token) => token_front(alloc, &token),
        None => Ok(Front::End),
    }
}

/// The bytes with 0 in place of each D.
fn without_d(alloc: Global, bytes: &[u8]) -> Result<Vec<u8>, AllocError>
    ensures { IfOk result (λ out. out.items ≡ map no_d bytes.now) }
{
    let mut out = Vec::new(alloc);
    for b in bytes {
        out.push(if matches!(b, b'D' | b'd') { b'0' } else { *b })?;
    }
    Ok(out)
}

/// What is wrong at this byte, where these come there.
fn fault_in(alloc: Global, at: usize, bytes: &[u8]) -> Result<NoJson, AllocError>
    ensures { IfOk result (λ why. why ≡ fault_in at bytes.now) }
{
    match bytes_front(alloc, bytes)? {
        Front::End => Ok(NoJson::Unmatched),
        Front::Good => Ok(NoJson::Sign(at)),
        Front::Huge => Ok(NoJson::Number(at)),
        Front::Bad if !matches!(bytes.first(), Some(b'"')) => Ok(NoJson::Word(at)),
        Front::Bad => {
            let mended = without_d(alloc, bytes)?;
            match bytes_front(alloc, mended.as_slice())? {
                Front::Good => Ok(NoJson::HalfPair(at)),
                Front::End | Front::Huge | Front::Bad => Ok(NoJson::Quoted(at)),
            }
        }
    }
}

/// Why a text is none that is read.
pub(crate) fn no_json(alloc: Global, text: &str) -> Result<NoJson, AllocError>
    ensures { IfOk result (λ why. why ≡ no_json text.now) }
{
    let depth = depth_of(alloc, text)?;
    if depth > MAX_DEPTH {
        return Ok(NoJson::Deep(depth));
    }
    let count = tokens_read(alloc, text)?;
    let at = begin_of_token(text.as_bytes(), count);
    fault_in(alloc, at, text.as_bytes().split_at(at).1)
}

/// Puts what is wrong at the end, after the name of what is wrong so.
#[tactic(auto, unfolding(crate::specs::NoJson::no_json_text))]
pub(crate) fn push_no_json(out: &mut String, why: NoJson) -> Result<(), AllocError>
    ensures { OnOk result (string_bytes out.new ≡ string_bytes out.old ++ no_json_text why) }
{
    match why {
        NoJson::Deep(depth) => write!(out, "nests {depth} deep; at most 127 is read"),
        NoJson::HalfPair(at) => write!(
            out,
            "has half of a surrogate pair, in the text that begins at byte {} of it",
            at as u128 + 1
        ),
        NoJson::Number(at) => write!(
            out,
            "has a number that no 64-bit float holds, at byte {} of it",
            at as u128 + 1
        ),
        NoJson::Quoted(at) => write!(
            out,
            "has a text at byte {} of it that does not end, or holds a control character or an escape that JSON lacks",
            at as u128 + 1
        ),
        NoJson::Word(at) => write!(
            out,
            "has a word at byte {} of it that is no JSON value",
            at as u128 + 1
        ),
        NoJson::Sign(at) => write!(
            out,
            "is no JSON at byte {} of it, or at a comma or colon in front of that",
            at as u128 + 1
        ),
        NoJson::Unmatched => write!(
            out,
            "ends too early, or has brackets that do not match, or a member without a name or value"
        ),
    }
}
