//! The files of a command: inputs, outputs, and files that no output may overwrite.
ghost use Rattle.std.specs.Prelude.{◌≡◌, ℕ, IfErr, IfOk, List, None, Some, codes, length, take, IsTrue, Option};
ghost use Rattle.app_files.specs.FailedFiles.{IsCaptureFault, IsOfPath};
ghost use Rattle.app_files.specs.Taken.{BeginWith};
ghost use Rattle.app_files.specs.declared.failed_file.Access.TheVariants.{Reading, Writing};

use crate::cause::{Cause, capture_cause, read_cause, write_cause};
use crate::failed_file::{FileFault, input_fault, output_fault};
use crate::output::{
    FileId, Output, add_file, has_file, is_same_file, open_file_id, open_output, path_file_id,
};
use crate::paths::capture_path;
use crate::reading::{MOST_TEXT, ReadFault, read_at_most};
use bridge_limits::NoMemory;
use std::alloc::Global;
use std::fs;
use std::io::{ErrorKind, Read};
use std::rt::Files;

/// Path of standard output's file, which may be a regular file by redirection.
const STANDARD_OUTPUT: &str = "/dev/stdout";

/// Files of a command, and the system that contains them.
///
/// Files in use are those that the command reads or has opened for writing. No output may be a file in use.
#[derive(Drop)]
pub struct CommandFiles<'a, H> {
    /// System that contains the files.
    pub rt: &'a H,
    /// Files in use, as far as the system identifies them.
    pub in_use: Vec<FileId>,
}

impl<'a, H: AllocGlobal + Files> CommandFiles<'a, H> {
    /// Returns the files of a command that hasn't opened any file. Functions of `app_networks` and `net_check` call it. Each command needs
    /// its own.
    pub fn new(rt: &'a H) -> CommandFiles<'a, H> {
        CommandFiles {
            rt,
            in_use: Vec::new(rt.alloc()),
        }
    }

    /// Returns the allocator of the command. Commands allocate their texts and lists with it.
    pub fn alloc(&self) -> Global {
        self.rt.alloc()
    }

    /// Returns a copy with equal files in use. `files_of_run` of `app_commands` adds files to the copy for a test.
    pub fn copy(&self) -> Result<CommandFiles<'a, H>, NoMemory> {
        Ok(CommandFiles {
            rt: self.rt,
            in_use: Vec::from_slice(self.rt.alloc(), &self.in_use)?,
        })
    }

    /// Opens a file for reading, and adds it to the files in use. Fails with the path and cause if the file can't be opened.
    /// `CommandFiles::read` and `CommandFiles::open_file` call it.
    pub fn open(&mut self, path: &str) -> Result<H::File, FileFault>
        ensures fails { IfErr result (IsOfPath Reading path.now) }
        ensures kept { BeginWith self.old.in_use.items self.new.in_use.items }
    {
        let reader = open_input(self.rt, path)?;
        add_file(&mut self.in_use, open_file_id(&reader))?;
        Ok(reader)
    }

    /// Reads at most `MOST_TEXT` octets of the file at `path`, and adds it to the files in use. Fails with the path and cause if the file
    /// can't be read.
    ///
    /// Commands call it for plans, commands and networks.
    pub fn read_text(&mut self, path: &str) -> Result<Vec<u8>, FileFault>
        ensures { IfErr result (IsOfPath Reading path.now) }
    {
        self.read(path, MOST_TEXT)
    }

    /// Adds open files to the files in use. `create_outputs` of `app_commands` calls it for the captures that a run reads.
    pub fn note_files(&mut self, files: &[H::File]) -> Result<(), NoMemory>
        ensures { BeginWith self.old.in_use.items self.new.in_use.items }
    {
        for file in files {
            add_file(&mut self.in_use, open_file_id(file))?;
        }
        Ok(())
    }

    /// Adds the regular file at `path`, if it exists, to the files in use. Ignores pipes and devices: they lose nothing if written.
    /// `note_standard_output`, and `note_captures` and `files_of_run` of `app_commands` call it.
    pub fn note_regular(&mut self, path: &str) -> Result<(), NoMemory> {
        add_file(&mut self.in_use, regular_file_id(self.rt, path))
    }

    /// Adds standard output's file to the files in use, if it is a regular file. Otherwise the line of counts would overwrite an output to
    /// this file.
    ///
    /// `run_with_outputs` of `app_commands` and `run_rounds` of `app_networks` call it.
    pub fn note_standard_output(&mut self) -> Result<(), NoMemory> {
        self.note_regular(STANDARD_OUTPUT)
    }

    /// Adds the regular file at `path` to the files in use. Returns false if it was in use already. Missing files, pipes and devices count
    /// as new. `CommandFiles::note_captures` calls it.
    fn note_new(&mut self, path: &str) -> Result<bool, NoMemory> {
        let file = regular_file_id(self.rt, path);
        if has_file(&self.in_use, file) {
            return Ok(false);
        }
        add_file(&mut self.in_use, file)?;
        Ok(true)
    }

    /// Adds the created captures of a folder to the files in use. Fails at the first capture that is in use already, because two captures
    /// may be links to one file.
    pub fn note_captures(&mut self, folder: &str, ports: &[u8]) -> Result<(), FileFault>
        ensures { IfErr result (IsCaptureFault Writing folder.now ports.now) }
    {
        for port in ports {
            let Ok(path) = capture_path(self.rt.alloc(), folder, *port) else {
                return Err(FileFault::NoMemory);
            };
            let Ok(is_new) = self.note_new(path.as_str()) else {
                return Err(FileFault::NoMemory);
            };
            if !is_new {
                return Err(output_fault(self.rt.alloc(), path.as_str(), Cause::InUse));
            }
        }
        Ok(())
    }

    /// Refuses an output path that leads to a file in use, without opening it. A missing file is accepted.
    pub fn refuse_in_use(&self, path: &str) -> Result<(), FileFault>
        ensures { IfErr result (IsOfPath Writing path.now) }
    {
        if has_file(&self.in_use, path_file_id(self.rt, path)) {
            return Err(output_fault(self.rt.alloc(), path, Cause::InUse));
        }
        Ok(())
    }

    /// Refuses standard output if it goes to a file in use. The file fault names the path `-`.
    pub fn spare_standard_output(&self) -> Result<(), FileFault>
        ensures { IfErr result (IsOfPath Writing (codes "-")) }
    {
        if has_file(&self.in_use, path_file_id(self.rt, STANDARD_OUTPUT)) {
            return Err(output_fault(self.rt.alloc(), "-", Cause::InUse));
        }
        Ok(())
    }

    /// Refuses an output path that leads to a regular file in use, without opening it. A missing file or a pipe is accepted.
    /// `check_path_unused` of `app_commands` calls it.
    pub fn spare(&self, path: &str) -> Result<(), FileFault>
        ensures { IfErr result (IsOfPath Writing path.now) }
    {
        if has_file(&self.in_use, regular_file_id(self.rt, path)) {
            return Err(output_fault(self.rt.alloc(), path, Cause::InUse));
        }
        Ok(())
    }

    /// Opens a file for writing, or creates it. Its contents remain until the first write. Refuses a file in use. `create_new`,
    /// `write_picture_file` of `app_commands` and 2 more call it.
    pub fn create(&self, path: &str) -> Result<Output<H::File>, FileFault>
        ensures { IfErr result (IsOfPath Writing path.now) }
    {
        let output = create_output(self.rt, path)?;
        if has_file(&self.in_use, output.id()) {
            drop(output);
            return Err(output_fault(self.rt.alloc(), path, Cause::InUse));
        }
        Ok(output)
    }

    /// Opens a file for writing as `create` does, and adds it to the files in use. Fails with the path and cause if the file is in use or
    /// can't be created.
    ///
    /// `write_report_file` and `write_table` of `app_commands`, and `open_output` of `app_networks` call it.
    pub fn create_new(&mut self, path: &str) -> Result<Output<H::File>, FileFault>
        ensures { IfErr result (IsOfPath Writing path.now) }
    {
        let output = self.create(path)?;
        match add_file(&mut self.in_use, output.id()) {
            Ok(()) => Ok(output),
            Err(NoMemory) => {
                drop(output);
                Err(FileFault::NoMemory)
            }
        }
    }

    /// Opens the captures of `ports` in a folder for writing, in list order. Fails at the first capture that can't be opened or is in use.
    /// `create_outputs` of `app_commands` and `open_captures` of `app_networks` call it.
    pub fn create_captures(
        &self,
        folder: &str,
        ports: &[u8],
    ) -> Result<Vec<Output<H::File>>, FileFault>
        ensures all { IfOk result (λ outputs. length outputs.items ≡ length ports.now) }
        ensures fails { IfErr result (IsCaptureFault Writing folder.now ports.now) }
    {
        let mut outputs = Vec::new(self.rt.alloc());
        for port in ports {
            let Ok(path) = capture_path(self.rt.alloc(), folder, *port) else {
                return Err(FileFault::NoMemory);
            };
            let output = match self.create(path.as_str()) {
                Ok(output) => output,
                Err(fault) => return Err(fault),
            };
            if outputs.push(output).is_err() {
                return Err(FileFault::NoMemory);
            }
        }
        Ok(outputs)
    }
}

impl<H: AllocGlobal + Files> ReadFiles for CommandFiles<'_, H> {
    ghost octets_at = { λ _ _. None };

    type File = H::File;

    fn open_file(&mut self, path: &str) -> Result<H::File, FileFault> {
        self.open(path)
    }

    fn read(&mut self, path: &str, most: u64) -> Result<Vec<u8>, FileFault> {
        let reader = self.open(path)?;
        read_open(self.rt, path, reader, most)
    }

    fn is_there(&self, path: &str) -> bool {
        path_file_id(self.rt, path).is_some()
    }
}

/// Opens the file at `path` for reading. Doesn't add it to files in use: commands that write no file need none. Fails with the path and
/// cause if the file can't be opened. `open` calls it.
pub fn open_input<H: AllocGlobal + Files>(rt: &H, path: &str) -> Result<H::File, FileFault>
    ensures { IfErr result (IsOfPath Reading path.now) }
{
    match fs::open(rt, path) {
        Ok(reader) => Ok(reader),
        Err(error) => Err(input_fault(rt.alloc(), path, read_cause(rt, path, &error))),
    }
}

/// Reads at most `most` octets of an open file. The file fault names `path`, with the cause of the failed read. `read`, and
/// `bound_traffic` of `app_networks` call it.
pub fn read_open<R: Read + Drop>(
    rt: &(impl AllocGlobal + Files),
    path: &str,
    reader: R,
    most: u64,
) -> Result<Vec<u8>, FileFault>
    ensures octets { (octets : List ℕ) → R.remaining reader ≡ Some octets
        → IfOk result (λ text. text.items ≡ take most octets) }
    ensures fails { IfErr result (IsOfPath Reading path.now) }
{
    let mut text = Vec::new(rt.alloc());
    match reader.take(most).read_to_end(&mut text) {
        Ok(_) => Ok(text),
        Err(error) => {
            if error.kind() == ErrorKind::OutOfMemory {
                return Err(FileFault::NoMemory);
            }
            Err(input_fault(rt.alloc(), path, read_cause(rt, path, &error)))
        }
    }
}

/// Opens the captures of `ports` in a folder for reading, in list order. Fails at the first capture that can't be opened. `send_named` of
/// `app_commands` calls it.
pub fn open_captures<H: AllocGlobal + Files>(
    rt: &H,
    folder: &str,
    ports: &[u8],
) -> Result<Vec<H::File>, FileFault>
    ensures all { IfOk result (λ files. length files.items ≡ length ports.now) }
    ensures fails { IfErr result (IsCaptureFault Reading folder.now ports.now) }
{
    let mut files = Vec::new(rt.alloc());
    for port in ports {
        let Ok(path) = capture_path(rt.alloc(), folder, *port) else {
            return Err(FileFault::NoMemory);
        };
        let file = match open_capture(rt, path.as_str(), Cause::NoCapture) {
            Ok(file) => file,
            Err(fault) => return Err(fault),
        };
        if files.push(file).is_err() {
            return Err(FileFault::NoMemory);
        }
    }
    Ok(files)
}

/// Opens a capture for reading. If it doesn't exist and no file next to it explains that, the cause is `missing`. `open_captures` and
/// `wire_files` of `app_commands` call it.
pub fn open_capture<H: AllocGlobal + Files>(
    rt: &H,
    path: &str,
    missing: Cause,
) -> Result<H::File, FileFault>
    ensures { IfErr result (IsOfPath Reading path.now) }
{
    match fs::open(rt, path) {
        Ok(file) => Ok(file),
        Err(error) => Err(input_fault(rt.alloc(), path, capture_cause(rt, path, &error, missing))),
    }
}

/// Opens the file at `path` for writing, or creates it. Its contents remain until the first write. A file fault has path and cause.
/// `create` and `create_apart` call it.
pub fn create_output<H: AllocGlobal + Files>(
    rt: &H,
    path: &str,
) -> Result<Output<H::File>, FileFault>
    ensures { IfErr result (IsOfPath Writing path.now) }
{
    match open_output(rt, path) {
        Ok(output) => Ok(output),
        Err(error) => Err(output_fault(rt.alloc(), path, write_cause(rt, path, &error))),
    }
}

/// Opens the file at `path` for writing as `create_output` does. Refuses the file `input`, which the command reads. `input` is `None` if
/// the system can't identify it. `wire_to_output` of `app_commands` calls it.
pub fn create_apart<H: AllocGlobal + Files>(
    rt: &H,
    path: &str,
    input: Option<FileId>,
) -> Result<Output<H::File>, FileFault>
    ensures { IfErr result (IsOfPath Writing path.now) }
{
    let output = create_output(rt, path)?;
    if is_same_file(input, output.id()) {
        drop(output);
        return Err(output_fault(rt.alloc(), path, Cause::InUse));
    }
    Ok(output)
}

/// Refuses an output folder that is the input folder: one inode of one device. Accepts a path that can't be examined. `send_named` of
/// `app_commands` calls it.
pub fn refuse_same_folder<H: AllocGlobal + Files>(
    rt: &H,
    input: &str,
    output: &str,
) -> Result<(), FileFault>
    ensures { IfErr result (IsOfPath Writing output.now) }
{
    if is_same_file(path_file_id(rt, input), path_file_id(rt, output)) {
        return Err(output_fault(rt.alloc(), output, Cause::SameFolder));
    }
    Ok(())
}

/// Creates a missing folder for outputs, with its parents. Refuses one of the folders `read`, because outputs would replace inputs there.
/// `make_output_folder` of `app_networks` calls it.
pub fn make_folder<H: AllocGlobal + Files>(
    rt: &H,
    path: &str,
    read: &[FileId],
) -> Result<(), FileFault>
    ensures { IfErr result (IsOfPath Writing path.now) }
{
    if has_file(read, path_file_id(rt, path)) {
        return Err(output_fault(rt.alloc(), path, Cause::SameFolder));
    }
    match fs::create_dir_all(rt, path) {
        Ok(()) => Ok(()),
        Err(error) => Err(output_fault(rt.alloc(), path, write_cause(rt, path, &error))),
    }
}

/// Returns the identity of the regular file at a path. Returns `None` for a missing file, a pipe or a device: writing to them loses
/// nothing. `note_regular`, `note_new` and `spare` call it.
fn regular_file_id(rt: &impl Files, path: &str) -> Option<FileId> {
    match fs::metadata(rt, path) {
        Ok(metadata) if metadata.is_file() => path_file_id(rt, path),
        _ => None,
    }
}

/// Files that a command reads, by path. Contracts over this trait can name the octets of each file; the octets of the system's files are
/// unknown.
pub trait ReadFiles {
    /// Octets of the file at a path, if they are known.
    ghost octets_at: { Self → List ℕ → Option (List ℕ) };

    /// An open file.
    type File: Read + Drop;

    /// Opens the file at `path` for reading. Fails with the path and cause if the file can't be opened.
    fn open_file(&mut self, path: &str) -> Result<Self::File, FileFault>
        ensures octets { (octets : List ℕ) → octets_at self.old path.now ≡ Some octets
            → IfOk result (λ file. Self.File.remaining file ≡ Some octets) }
        ensures fails { IfErr result (IsOfPath Reading path.now) }
        ensures same { (path : List ℕ) → octets_at self.new path ≡ octets_at self.old path };

    /// Reads at most `most` octets of the file at `path`. Fails with the path and cause if the file can't be read.
    fn read(&mut self, path: &str, most: u64) -> Result<Vec<u8>, FileFault>
        ensures octets { (octets : List ℕ) → octets_at self.old path.now ≡ Some octets
            → IfOk result (λ text. text.items ≡ take most octets) }
        ensures fails { IfErr result (IsOfPath Reading path.now) }
        ensures same { (path : List ℕ) → octets_at self.new path ≡ octets_at self.old path };

    /// Returns whether a file exists at `path`. `read_commands` of `app_networks` asks, because a bridge's commands are optional.
    fn is_there(&self, path: &str) -> bool
        ensures { (octets : List ℕ) → octets_at self.now path.now ≡ Some octets → IsTrue result };
}
