//! A law of reports, for reviewers: the contract of an empty function that no code calls.
ghost use Rattle.std.specs.Prelude.{◌≡◌, ℕ};
ghost use Rattle.bridge_semantics.specs.declared.outcome.View.{View};
ghost use Rattle.bridge_semantics.specs.Runs.{AreSameViews};
ghost use Rattle.bridge_report.specs.Section.{section_text};

use std::alloc::Allocator;

/// Equal records of a filter give equal sections, octet for octet. A protected filter's section therefore depends on its own events only.
/// docs/ISOLATION.md cites it.
pub fn same_section<A: Allocator + Copy>()
    ensures { (filter : ℕ) (u v : View A) → AreSameViews u v → section_text filter u ≡ section_text filter v }
{}
