//! What the lexer makes of a text. In the text `\xff` is the byte of that hexadecimal number,
//! counted as one byte. `@22..27` is the place of the token that it stands behind.
use case_pages::{said, shown_stop};
use lint_base::{NoMemory, Span};
use sql_lex::{Kind, Sign, Token, lex, split_queries};
use std::alloc::{AllocError, Global};

/// A byte by its hexadecimal number. What is no such number is a question mark.
fn byte(code: &str) -> u8 {
    u8::from_str_radix(code, 16).unwrap_or(b'?')
}

/// The bytes of a text.
fn bytes(alloc: Global, text: &str) -> Result<Vec<u8>, NoMemory> {
    let mut parts = text.split("\\x");
    let mut all = Vec::new(alloc);
    all.extend_from_slice(parts.next().unwrap_or("").as_bytes())?;
    for part in parts {
        let (code, after) = part.split_at_checked(2).unwrap_or((part, ""));
        all.push(byte(code))?;
        all.extend_from_slice(after.as_bytes())?;
    }
    Ok(all)
}

/// The part that a text states in front of it, as `@3..6 `, and the text behind it.
fn stated_part(text: &str) -> Option<(Span, &str)> {
    let (place, rest) = text.strip_prefix('@')?.split_once(' ')?;
    let (from, to) = place.split_once("..")?;
    let from = from.parse::<u32>().ok()?;
    let to = to.parse::<u32>().ok()?;
    Some((Span { from, to }, rest))
}

fn push_kind(out: &mut String, kind: &Kind) -> Result<(), AllocError> {
    match kind {
        Kind::Name {
            text,
            quoted: false,
        } => write!(out, "name {}", text.as_str()),
        Kind::Name { text, quoted: true } => write!(out, "quoted \"{}\"", text.as_str()),
        Kind::Reserved(place) => write!(out, "reserved {place}"),
        Kind::Text(text) => write!(out, "text '{}'", text.as_str()),
        Kind::Number(value) => write!(out, "number {value}"),
        Kind::Sign(Sign::Compare(op)) => write!(out, "sign {op:?}"),
        Kind::Sign(sign) => write!(out, "sign {sign:?}"),
    }
}

/// Tokens with commas between them. The end of a line is `\n`.
fn shown_tokens(alloc: Global, tokens: &[Token]) -> Result<String, NoMemory> {
    let mut out = String::new(alloc);
    for (number, token) in tokens.iter().enumerate() {
        if number > 0 {
            out.push_str(", ")?;
        }
        push_kind(&mut out, &token.kind)?;
        let Span { from, to } = token.span;
        write!(out, " @{from}..{to}")?;
    }
    if out.is_empty() {
        out.push_str("none")?;
    }
    Ok(out.replace(alloc, '\n', "\\n")?)
}

/// The tokens of a text, or of the part that it states, or why there are none.
pub(crate) fn tokens(alloc: Global, text: &str) -> Result<String, NoMemory> {
    let (part, text) = match stated_part(text) {
        Some((part, rest)) => (Some(part), rest),
        None => (None, text),
    };
    let bytes = bytes(alloc, text)?;
    let Ok(end) = u32::try_from(bytes.len()) else {
        return said(alloc, "too long");
    };
    let part = part.unwrap_or(Span { from: 0, to: end });
    if part.from > part.to || part.to > end {
        return said(alloc, "no such part");
    }
    match lex(alloc, bytes.as_slice(), part) {
        Ok(tokens) => shown_tokens(alloc, tokens.as_slice()),
        Err(stop) => shown_stop(alloc, stop),
    }
}

/// The places of the pieces of a query file.
pub(crate) fn pieces(alloc: Global, text: &str) -> Result<String, NoMemory> {
    let bytes = bytes(alloc, text)?;
    if u32::try_from(bytes.len()).is_err() {
        return said(alloc, "too long");
    }
    let mut out = String::new(alloc);
    for piece in split_queries(bytes.as_slice()) {
        if !out.is_empty() {
            out.push_str(", ")?;
        }
        let Span { from, to } = piece;
        write!(out, "{from}..{to}")?;
    }
    if out.is_empty() {
        out.push_str("none")?;
    }
    Ok(out)
}
