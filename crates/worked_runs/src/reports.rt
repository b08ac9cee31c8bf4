//! What is shown of the texts that runs write.
use lint_base::NoMemory;
use std::alloc::Global;

/// A status, and what was written, with `\n` for the end of a line.
pub(crate) fn shown(alloc: Global, status: u8, text: &str) -> Result<String, NoMemory> {
    if text.is_empty() {
        return Ok(format!(in alloc; "{status}")?);
    }
    let text = text.replace(alloc, "\n", "\\n")?;
    Ok(format!(in alloc; "{status}: {}", text.as_str())?)
}

/// The code and the verdict of a line of a question; none of another line.
fn question(line: &str) -> Option<(&str, &str)> {
    let line = line.strip_prefix("  ")?;
    let (front, verdict) = line.split_once(": ")?;
    let (_, coded) = front.split_once(' ')?;
    let (code, _) = coded.split_once(" at ")?;
    if code.starts_with('E') {
        Some((code, verdict))
    } else {
        None
    }
}

/// A verdict, without the number of a search that was given up.
fn kind(verdict: &str) -> &str {
    if verdict.starts_with("spent ") {
        "spent"
    } else {
        verdict
    }
}

/// What stands before a verdict, by whether another stands before it.
fn separator(any: bool) -> &'static str {
    if any { ", " } else { ": " }
}

/// A status, and the codes and verdicts of a report.
pub(crate) fn verdicts(alloc: Global, status: u8, report: &str) -> Result<String, NoMemory> {
    let mut all = format!(in alloc; "{status}")?;
    let mut any = false;
    for line in report.lines() {
        if let Some((code, verdict)) = question(line) {
            let shown = format!(in alloc; "{}{code} {}", separator(any), kind(verdict))?;
            all.push_str(shown.as_str())?;
            any = true;
        }
    }
    Ok(all)
}

/// Whether the verdict says that more than one case was tried.
fn is_spent(verdict: &str) -> bool {
    match verdict.strip_prefix("spent ") {
        Some(tried) => tried != "0" && tried != "1",
        None => false,
    }
}

/// Whether the verdict is one that follows from that of another question.
fn follows(verdict: &str) -> bool {
    verdict == "moot" || verdict.starts_with("blocked ") || verdict.starts_with("cyclic ")
}

/// How many questions of a query, and how many of them have in a run with a small budget the
/// verdict of a run with much, were given up there, or have what follows where one before them
/// was given up.
pub(crate) fn thrifty(alloc: Global, usual: &str, small: &str) -> Result<String, NoMemory> {
    let (mut right, mut all): (u32, u32) = (0, 0);
    let mut any_spent = false;
    let answers = usual.lines().filter_map(question);
    for ((code, verdict), (same, other)) in answers.zip(small.lines().filter_map(question)) {
        let given_up = is_spent(other);
        all = all.saturating_add(1);
        if code == same && (verdict == other || given_up || any_spent && follows(other)) {
            right = right.saturating_add(1);
        }
        any_spent = any_spent || given_up;
    }
    Ok(format!(in alloc; "{right} of {all}")?)
}

/// How many questions of a report hold always.
pub(crate) fn always(report: &str) -> u32 {
    let mut count: u32 = 0;
    for line in report.lines() {
        if let Some((_, verdict)) = question(line)
            && verdict.starts_with("always")
        {
            count = count.saturating_add(1);
        }
    }
    count
}

/// How many lines of a check say that a certificate is accepted.
pub(crate) fn accepted(checks: &str) -> u32 {
    let mut count: u32 = 0;
    for line in checks.lines() {
        if line.ends_with(": accepted") {
            count = count.saturating_add(1);
        }
    }
    count
}
