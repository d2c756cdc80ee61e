//! Reading of traffic files, which `bounds --traffic` needs.
ghost use Rattle.std.specs.Prelude.{◌≡◌, ◌≤◌, All, IfErr, IfOk, length, nat_eq, true};
ghost use Rattle.toml.specs.View.{items_view, table_view};
ghost use Rattle.bridge_limits.specs.Members.{has_no_duplicate};
ghost use Rattle.net_file.specs.declared.fault.NetFault.TheVariants.{NoMemory};
ghost use Rattle.net_file.specs.Keys.{GivesAs};
ghost use Rattle.net_file.specs.TrafficDocument as doc;
ghost use Rattle.net_file.specs.TrafficRows.{IsTalkerRow, row_filter};

use crate::fault::{NetFault, NetSection};
use crate::network_file::read_document;
use crate::traffic_row::{TalkerRow, TrafficSection};
use bridge_schema::{has_only, read_instances, section_items};
use std::alloc::{Allocator, Global};
use toml::{Table, Value};

/// Returns the items of the section `traffic`, or the first fault at the top of the document. If the document has another section, the
/// fault is `UnknownKey`. Allocates no memory.
///
/// `parse_traffic` calls it.
#[tactic(auto, unfolding(crate::specs::TrafficDocument::row_items))]
fn row_items<'a>(table: &'a Table) -> Result<&'a [Value], NetFault>
    ensures reads { GivesAs (λ x. items_view x.now) result (doc.row_items (table_view table.now)) }
    ensures few { IfOk result (λ x. length x.now ≤ 1024) }
    ensures takes_no_memory { IfErr result (λ e. ¬ (e ≡ NoMemory)) }
{
    if !has_only(table, &[NetSection::Traffic]) {
        return Err(NetFault::UnknownKey(NetSection::Top, 0));
    }
    section_items(NetSection::Traffic, table)
}

/// Reads the rows of a traffic file from a TOML text, or returns the first fault. `heap` holds the document, `alloc` the rows. It doesn't
/// compare the rows with a plan.
///
/// `explain_refused_traffic` of `app_networks`, and `explain_traffic` and `parse_rows` of `net_latency` call it.
pub fn parse_traffic<A: Allocator + Copy>(
    alloc: A,
    heap: Global,
    text: &[u8],
) -> Result<Vec<TalkerRow, A>, NetFault>
    ensures reads { GivesAs (λ v. v.items) result (doc.rows_of_text text.now) }
    ensures rows { IfOk result (λ v. All IsTalkerRow v.items) }
    ensures own { IfOk result (λ v. has_no_duplicate (λ r s. nat_eq (row_filter r) (row_filter s)) v.items ≡ true) }
    ensures few { IfOk result (λ v. length v.items ≤ 1024) }
{
    let document = read_document(heap, text)?;
    let items = row_items(&document)?;
    read_instances(alloc, &TrafficSection, items)
}
