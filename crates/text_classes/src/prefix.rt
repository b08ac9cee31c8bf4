//! A beginning that none of some texts has.
ghost use Rattle.std.specs.Prelude.{◌≡◌, ◌<◌, ◌≤◌, ◌+◌, ℕ, length, IfOk, slice_index_or, string_bytes, encode_utf8_all};
ghost use Rattle.std.specs.Str.{IsAscii};
ghost use Rattle.text_classes.specs.inner.Fresh.{NoneBegins, AreListed, HasByte, IsListed};

use lint_base::{NoMemory, Str};
use std::alloc::Global;

/// The numbers of the texts that have one digit somewhere, and of those that have the other.
#[derive(Drop)]
struct Halves {
    zeros: Vec<usize>,
    ones: Vec<usize>,
}

/// A digit, and the numbers of the texts that have it somewhere.
#[derive(Drop)]
struct Narrowed {
    digit: char,
    rest: Vec<usize>,
}

/// Digits with which none of the texts begins: of the two digits always the one that fewer have.
pub(crate) fn unused(alloc: Global, texts: &[Str]) -> Result<String, NoMemory>
    ensures none { IfOk result (λ prefix. NoneBegins (string_bytes prefix) texts.now) }
    ensures ascii { IfOk result (λ prefix. IsAscii (string_bytes prefix)) }
{
    let mut prefix = String::new(alloc);
    let mut rest = numbers(alloc, texts.len())?;
    while !rest.is_empty() {
        let narrowed = narrow(alloc, texts, &rest, prefix.as_str().len())?;
        prefix.push(narrowed.digit)?;
        rest = narrowed.rest;
    }
    Ok(prefix)
}

/// The numbers below a count.
fn numbers(alloc: Global, count: usize) -> Result<Vec<usize>, NoMemory>
    ensures count { IfOk result (λ v. length v.items ≡ count) }
    ensures each { IfOk result (λ v. (k : ℕ) → k < count → slice_index_or v.items k 0 ≡ k) }
{
    let mut all = Vec::new(alloc);
    for number in 0..count {
        all.push(number)?;
    }
    Ok(all)
}

/// The digit that fewer of the texts have at the depth, and the numbers of those.
fn narrow(alloc: Global, texts: &[Str], rest: &[usize], depth: usize) -> Result<Narrowed, NoMemory>
    requires within { AreListed rest.now texts.now }
    requires some { 0 < length rest.now }
    ensures digit { IfOk result (λ n. n.digit < 128) }
    ensures has { let count = length rest.now in
        IfOk result (λ n. HasByte texts.now rest.now count depth n.digit n.rest.items) }
    ensures fewer { IfOk result (λ n. length n.rest.items < length rest.now) }
{
    let halves = halve(alloc, texts, rest, depth)?;
    if halves.zeros.len() <= halves.ones.len() {
        Ok(Narrowed {
            digit: '0',
            rest: halves.zeros,
        })
    } else {
        Ok(Narrowed {
            digit: '1',
            rest: halves.ones,
        })
    }
}

/// The numbers of those texts that have a 0 at the depth, and of those that have a 1.
fn halve(alloc: Global, texts: &[Str], rest: &[usize], depth: usize) -> Result<Halves, NoMemory>
    requires within { AreListed rest.now texts.now }
    ensures zeros { let count = length rest.now in
        IfOk result (λ h. HasByte texts.now rest.now count depth 48 h.zeros.items) }
    ensures ones { let count = length rest.now in
        IfOk result (λ h. HasByte texts.now rest.now count depth 49 h.ones.items) }
    ensures few { IfOk result (λ h. length h.zeros.items + length h.ones.items ≤ length rest.now) }
{
    let mut zeros = Vec::new(alloc);
    let mut ones = Vec::new(alloc);
    for number in rest {
        let byte = byte_at(&texts[*number], depth);
        if byte == b'0' {
            zeros.push(*number)?;
        } else if byte == b'1' {
            ones.push(*number)?;
        }
    }
    Ok(Halves { zeros, ones })
}

/// The byte of the text at the depth, or 0 past its end.
fn byte_at(text: &Str, depth: usize) -> u8
    ensures { result ≡ slice_index_or (encode_utf8_all text.now) depth 0 }
{
    text.as_str().as_bytes().get(depth).copied().unwrap_or(0)
}
