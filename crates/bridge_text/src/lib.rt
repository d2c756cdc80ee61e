#![tactic(auto)]
//! Texts that grow piece by piece, positions in texts, values of TOML documents in words of planners, and SVG pictures.
//!
//! If memory runs out, a text reports it once, at its end. Functions that add pieces therefore return no error.
//!
//! Callers of the SVG modules give elements with positions, styles and words. The modules write the markup, escape each word, and keep a
//! picture within 2,000,000 octets.
//!
//! The SVG modules draw shapes up to a limit, a page that grows downwards, and spans of time with their axis.

mod document;
mod kind;
mod nearest;
mod path_prefix;
mod position;
mod stray;
mod svg_elements;
mod svg_page;
mod svg_shapes;
mod svg_span;
mod text_builder;
mod value;

pub use bridge_limits::NoMemory;
pub use document::{
    Document, Instance, find_duplicate, instance_table, put_no_list, put_too_many,
    section_instances, table_value, unsigned_number, value_items,
};
pub use kind::{FileKind, file_kind, is_network_text, put_other_kind};
pub use nearest::{BRIDGES, KEYS, nearest_name, put_nearest};
pub use path_prefix::{escape_text, finish_with_path, text_with_path};
pub use position::{
    Position, key_position, position_at_offset, put_position, table_position, top_level_position,
};
pub use stray::put_stray_section;
pub use svg_elements::{Bar, Element, Mark, Point, Size, picture_head, text_line};
pub use svg_page::{AXIS_LEFT, AXIS_WIDTH, LegendRow, Page, Sample, choose_word};
pub use svg_shapes::{Shapes, fill_form};
pub use svg_span::Span;
pub use text_builder::TextBuilder;
pub use value::{Said, fill_with_word, first_items, put_key, put_text, put_value_sentence};
