//! Reads and checks plans from readers.
ghost use Rattle.std.specs.Prelude.{◌≡◌, ℕ, List, Some, Ok, IfOk, IfErr};
ghost use Rattle.bridge_config.specs.Document.{text_plan};
ghost use Rattle.app_failure.specs.Jobs.{Accepts, EndsCheck, EndsPlan};

use crate::accepting::check_isolation;
use crate::fault::{Failure, file_failure};
use app_files::read_named;
use bridge_check::Accepted;
use bridge_config::{Plan, plan_of};
use std::alloc::{Allocator, Global};
use std::io::Read;

/// Reads a plan from a reader, and accepts it if it isolates each of its protected filters and groups. If the reader fails, the failure
/// names `path`. The text's document uses `heap`, the plan `alloc`.
///
/// `check_text` of `app_commands` and 4 more call it.
pub fn read_accepted_plan<R: Read + Drop, A: Allocator + Copy>(
    alloc: A,
    heap: Global,
    path: &str,
    reader: R,
) -> Result<Accepted<A>, Failure>
    ensures ok { (input : List ℕ) → R.remaining reader ≡ Some input → IfOk result (λ accepted. Accepts input accepted) }
    ensures err { (input : List ℕ) → R.remaining reader ≡ Some input
        → IfErr result (EndsCheck A path.now input) }
{
    let plan = match read_plan(alloc, heap, path, reader) {
        Ok(plan) => plan,
        Err(fault) => return Err(fault),
    };
    check_isolation(alloc, plan)
}

/// Reads a plan from a reader, without checking isolation. If the reader fails, the failure names `path`.
///
/// Reads at most 1,048,577 octets, one more than a plan may have. Fails with `Plan` and the text's first fault. `read_accepted_plan`, and
/// `plan_picture` and `read_plan_and_commands` of `app_commands` call it.
pub fn read_plan<R: Read + Drop, A: Allocator + Copy>(
    alloc: A,
    heap: Global,
    path: &str,
    reader: R,
) -> Result<Plan<A>, Failure>
    ensures ok { (input : List ℕ) → R.remaining reader ≡ Some input
        → IfOk result (λ plan. text_plan input ≡ Ok plan) }
    ensures err { (input : List ℕ) → R.remaining reader ≡ Some input
        → IfErr result (EndsPlan A path.now input) }
    ensures read { IfOk result (λ plan. (input : List ℕ) × (text_plan input ≡ Ok plan)) }
    ensures only { IfErr result (λ fault. (input : List ℕ) × EndsPlan A path.now input fault) }
{
    match read_named(alloc, heap, path, reader) {
        Ok(text) => match plan_of(alloc, heap, &text) {
            Ok(plan) => Ok(plan),
            Err(fault) => Err(Failure::Plan(fault)),
        },
        Err(fault) => Err(file_failure(fault)),
    }
}
