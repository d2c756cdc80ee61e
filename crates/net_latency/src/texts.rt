//! Helpers of explanations: reading files again after a command, positions in a network file, and lists of numbers.

use app_files::read_text;
use bridge_text::{Document, Instance, Position, TextBuilder, put_position};
use net_file::{BridgeRow, NetSection, NetworkFile};
use std::alloc::Global;
use std::fs;
use std::rt::Files;

/// Returns the contents of a file, read again for an explanation. Returns `None` if this fails or the file is a pipe, which gives its
/// contents only once.
///
/// `explain_traffic`, `explain_refused_traffic` of `app_networks` and 4 more call it.
pub fn reread_text<H: AllocGlobal + Files>(rt: &H, path: &str) -> Option<Vec<u8>> {
    if !fs::metadata(rt, path).ok()?.is_file() {
        return None;
    }
    let reader = fs::open(rt, path).ok()?;
    read_text(rt.alloc(), reader).ok()
}

/// A network file, with its contents, for explanations that give positions in the file.
#[derive(Clone, Copy)]
pub struct NetworkText<'a> {
    /// Path of the file.
    pub path: &'a str,
    /// Contents and document of the file.
    pub document: Document<'a>,
    /// Network that the file describes.
    pub file: &'a NetworkFile<Global>,
}

impl<'a> NetworkText<'a> {
    /// Returns the bridge of the network file with index `place`, from 0, or `None` if the file lacks it. Explanations use the bridge's
    /// name. `explain_period`, `bridge_name` of `net_check` and 2 more call it.
    pub fn bridge(self, place: u16) -> Option<&'a BridgeRow<Global>> {
        self.file.bridges().get(place as usize)
    }

    /// Appends the path of the file, and the position of `key` or, if it is `None`, of the instance's header. `index` is the number of the
    /// instance in its section, from 1.
    ///
    /// Explanations begin with this position.
    pub fn put_place(
        self,
        said: &mut TextBuilder<Global>,
        section: NetSection,
        index: usize,
        key: Option<&str>,
    ) {
        said.put(self.path);
        put_position(said, self.position(section, index, key));
    }

    /// Appends the line of `key`, such as ` (line 15)`; nothing if the document lacks it. `index` is the number of the instance in its
    /// section, from 1.
    ///
    /// `put_twice`, and `put_earlier_link` of `net_check` call it for the earlier of two entries.
    pub fn put_line(
        self,
        said: &mut TextBuilder<Global>,
        section: NetSection,
        index: usize,
        key: &str,
    ) {
        if let Some(position) = self.position(section, index, Some(key)) {
            said.put_template(" (line {0})", &[position.line as u64], &[]);
        }
    }

    /// Returns the position of `key` or, if it is `None`, of the header of the section's instance `index`, from 1. Returns `None` if the
    /// document lacks the instance. `NetworkText::put_place` and `NetworkText::put_line` call it.
    fn position(self, section: NetSection, index: usize, key: Option<&str>) -> Option<Position> {
        let instance = Instance {
            document: self.document,
            section: section.name(),
            index: u32::try_from(index).ok()?,
        };
        instance.position(key)
    }
}

/// Appends the first 16 numbers with commas between them, then `..` if `numbers` has more. Explanations show lists of filters and ports in
/// this form. `put_protected` and others, and functions of `net_check` call it.
pub fn put_numbers(said: &mut TextBuilder<Global>, numbers: &[u64]) {
    let mut is_first = true;
    for number in numbers.iter().take(MOST_NUMBERS) {
        said.put_comma(is_first);
        said.put_number(*number);
        is_first = false;
    }
    if numbers.len() > MOST_NUMBERS {
        said.put(", ..");
    }
}

/// Number of items after which a list in an explanation is cut.
const MOST_NUMBERS: usize = 16;
