//! Explains why a file can't be opened, created, read or written, for `--explain`.
ghost use Rattle.std.specs.Prelude.{IfOk, string_bytes};
ghost use Rattle.bridge_text.specs.PathPrefix.{StartsWithName};

use app_files::Cause;
use bridge_limits::NoMemory;
use bridge_text::{TextBuilder, finish_with_path};
use std::alloc::{Allocator, Global};

/// Explanation for a file or folder with an empty path.
const EMPTY_PATH: &str =
    "A path is empty. Name the file or the folder, for example . for the current folder.\n";

/// Explains why a file can't be opened, created, read or written, with a remedy. The explanation begins with `path`. It answers
/// `--explain`. `explain_file_cause` and `explain_capture` of `app_commands` call it.
pub fn explain_file(alloc: Global, path: &str, cause: Cause) -> Result<String, NoMemory>
    ensures { IfOk result (λ said. StartsWithName path.now (string_bytes said)) }
{
    let mut said = TextBuilder::new(alloc);
    if path.is_empty() {
        said.put(EMPTY_PATH);
    } else {
        said.put_template(cause_sentence(cause), &[], &[path]);
    }
    finish_with_path(alloc, path, said)
}

/// Returns the sentence for a cause, about the file at the path `{a}`. `explain_file` calls it.
fn cause_sentence(cause: Cause) -> &'static str {
    match cause {
        Cause::NotFound =>
            ": no such file. Check the spelling, and the folder at which the path starts.\n",
        Cause::NoCapture =>
            ": no such file. Each port of the plan needs a capture. For a silent port, use an empty one, for example examples/alone/2.pcap.\n",
        Cause::Pcapng =>
            ": the file is missing, but {a}ng is there. Convert it: editcap -F nsecpcap {a}ng {a}\n",
        Cause::Gzip => ": the file is missing, but {a}.gz is there. Unpack it: gunzip {a}.gz\n",
        Cause::NoFolder =>
            ": its folder doesn't exist. Create the folder, or check the spelling.\n",
        Cause::Folder => ": this is a folder. Name a file instead.\n",
        Cause::NoFolderButFile => ": a part of the path is a file instead of a folder.\n",
        Cause::NotReadable => ": reading is not permitted.\n",
        Cause::NotWritable => ": writing is not permitted, or the disk is full.\n",
        Cause::SameFolder => {
            ": OUT is IN, so the run would overwrite its captures. Name another folder.\n"
        }
        Cause::InUse =>
            ": the command already reads or writes this file. Name another output file.\n",
        Cause::Standard => ": standard input or output can't be read or written.\n",
        Cause::Unknown => ": the system gave no known reason.\n",
    }
}

/// Writes a warning that the run doesn't read a capture in its folder, because the plan lacks port `port`. `warn_if_capture_unread` of
/// `app_commands` calls it.
pub fn warn_unread_capture<A: Allocator>(said: &mut TextBuilder<A>, path: &str, port: u8) {
    said.put_template(
        "Warning: {a} is not read: the plan has no port {0}.\n",
        &[u64::from(port)],
        &[path],
    );
}
