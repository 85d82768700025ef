//! Findings as diagnostics of the protocol.

ghost use Rattle.std.specs.Prelude.{◌≡◌, ◌<◌, ◌*◌, ◌^◌, ◌++◌, length, map, IfOk};
ghost use Rattle.serde_json.specs.View.{view};
ghost use Rattle.bt_remarks.specs.Values.{severity, tags, call, diagnostic, finding};

use crate::finding::{CallPlace, Finding, Weight};
use bt_positions::{Counting, IndexedText};
use bt_shapes::{location, range_of, shown};
use serde_json::{Value, json};
use std::alloc::{AllocError, Global};

/// A style's text with its URI, in the units of its editor.
#[derive(Clone, Copy)]
pub struct ShownText<'a> {
    pub uri: &'a [u8],
    pub counting: Counting,
    pub text: &'a IndexedText,
}

/// The protocol's number: a warning or a hint. A fault is no error, since the run goes on.
fn severity(weight: Weight) -> u8
    ensures { result ≡ severity weight }
{
    match weight {
        Weight::Fault => 2,
        Weight::Hint | Weight::Unused => 4,
    }
}

/// The tag of what could go.
fn tags(alloc: Global, weight: Weight) -> Result<Value, AllocError>
    ensures { IfOk result (λ v. view v ≡ tags weight) }
{
    match weight {
        Weight::Unused => json!(in alloc; [1]),
        Weight::Fault | Weight::Hint => json!(in alloc; []),
    }
}

/// A call as a related place.
fn call_value(alloc: Global, style: &ShownText<'_>, one: &CallPlace) -> Result<Value, AllocError>
    requires { 2 * length style.now.text.now < 2 ^ 64 }
    ensures { IfOk result (λ v. view v ≡ call style.now.counting style.now.uri.now style.now.text.now one.now) }
{
    let word = range_of(alloc, style.counting, style.text, one.start, one.end)?;
    let location = location(alloc, style.uri, word)?;
    let words = shown(alloc, one.words.as_slice())?;
    json!(in alloc; {"location": location, "message": words})
}

fn call_values(
    alloc: Global,
    style: &ShownText<'_>,
    calls: &[CallPlace],
) -> Result<Vec<Value>, AllocError>
    requires { 2 * length style.now.text.now < 2 ^ 64 }
    ensures { IfOk result (λ list. map view list.items ≡ map (call style.now.counting style.now.uri.now style.now.text.now) calls.now) }
{
    let mut list = Vec::new(alloc);
    'calls: for one in calls {
        list.push(call_value(alloc, style, one)?)?;
    }
    Ok(list)
}

fn value(alloc: Global, finding: &Finding, range: Value, calls: Value) -> Result<Value, AllocError>
    ensures { IfOk result (λ v. view v ≡ diagnostic finding.now.weight (view range) finding.now.code finding.now.words (view calls)) }
{
    let code = shown(alloc, finding.code.as_slice())?;
    let words = shown(alloc, finding.words.as_slice())?;
    let severity = severity(finding.weight);
    let tags = tags(alloc, finding.weight)?;
    json!(in alloc; {
        "range": range, "severity": severity, "code": code, "source": "bibtex-check", "message": words,
        "relatedInformation": calls, "tags": tags
    })
}

/// A finding as a diagnostic.
fn finding_value(alloc: Global, style: &ShownText<'_>, one: &Finding) -> Result<Value, AllocError>
    requires { 2 * length style.now.text.now < 2 ^ 64 }
    ensures { IfOk result (λ v. view v ≡ finding style.now.counting style.now.uri.now style.now.text.now one.now) }
{
    let range = range_of(alloc, style.counting, style.text, one.start, one.end)?;
    let calls = call_values(alloc, style, one.calls.as_slice())?;
    let value = value(alloc, one, range, Value::Array(calls))?;
    Ok(value)
}

/// Adds the findings in a style, each as one diagnostic at its place, in order.
pub fn with_findings(
    alloc: Global,
    style: &ShownText<'_>,
    found: &[Finding],
    list: Vec<Value>,
) -> Result<Vec<Value>, AllocError>
    requires { 2 * length style.now.text.now < 2 ^ 64 }
    ensures { IfOk result (λ all. map view all.items ≡
        map view list.items ++ map (finding style.now.counting style.now.uri.now style.now.text.now) found.now) }
{
    let mut all = list;
    'found: for one in found {
        all.push(finding_value(alloc, style, one)?)?;
    }
    Ok(all)
}
