//! Explains why a file isn't a plan, or has no commands for a plan's bridge, for `--explain`.
ghost use Rattle.std.specs.Prelude.{IfOk, string_bytes};
ghost use Rattle.bridge_text.specs.PathPrefix.{StartsWithName};

use crate::document::SourceText;
use crate::plan_fault::put_fault;
use crate::reading::read_document;
use bridge_limits::NoMemory;
use bridge_schema::PlanFault;
use bridge_text::{FileKind, Said, TextBuilder, finish_with_path, put_other_kind};
use std::alloc::Global;

/// Explains why a file isn't a plan: position of the fault, value there, allowed values. The explanation begins with `path`. `--explain`
/// prints it. `explain_plan_fault` of `app_commands` calls it.
pub fn explain_plan(
    alloc: Global,
    path: &str,
    text: &[u8],
    fault: &PlanFault,
) -> Result<String, NoMemory>
    ensures { IfOk result (λ said. StartsWithName path.now (string_bytes said)) }
{
    finish_with_path(
        alloc,
        path,
        explanation_body(alloc, path, text, None, fault),
    )
}

/// Explains why the file at `path` has no commands for the bridge of a plan. `text` has the commands, `plan` is the plan's text.
/// `app_commands` and `app_networks` call it.
pub fn explain_commands(
    alloc: Global,
    path: &str,
    text: &[u8],
    plan: &[u8],
    fault: &PlanFault,
) -> Result<String, NoMemory>
    ensures { IfOk result (λ said. StartsWithName path.now (string_bytes said)) }
{
    finish_with_path(
        alloc,
        path,
        explanation_body(alloc, path, text, Some(plan), fault),
    )
}

/// Returns the explanation of a file's fault, without the path that precedes it. `plan` is the plan's text, if the file has commands.
/// `explain_commands` and `explain_plan` call it.
fn explanation_body(
    alloc: Global,
    path: &str,
    octets: &[u8],
    plan: Option<&[u8]>,
    fault: &PlanFault,
) -> Said {
    let mut said = TextBuilder::new(alloc);
    let wanted = match plan {
        Some(_) => FileKind::Commands,
        None => FileKind::Plan,
    };
    put_other_kind(&mut said, path, octets, wanted);
    match fault {
        PlanFault::TooLong => said.put(
            ": the file has more than 1048576 octets. Remove entries that the bridge doesn't need.\n",
        ),
        PlanFault::NoMemory => said.put(": there is not enough memory to read it.\n"),
        _ => put_document_fault(alloc, &mut said, octets, plan, fault),
    }
    said
}

/// Writes the explanation of a fault of the text `octets`. Reads its document again, because faults have locations but no values.
/// `explanation_body` calls it.
fn put_document_fault(
    alloc: Global,
    said: &mut Said,
    octets: &[u8],
    plan: Option<&[u8]>,
    fault: &PlanFault,
) {
    let Some((text, document)) = read_document(alloc, said, octets) else {
        return;
    };
    let bridge = match plan {
        Some(plan) => toml::table_from_slice(alloc, plan).ok(),
        None => None,
    };
    let source = SourceText {
        text,
        document: &document,
        plan: bridge.as_ref().unwrap_or(&document),
        is_commands: plan.is_some(),
    };
    put_fault(alloc, said, source, fault);
}
