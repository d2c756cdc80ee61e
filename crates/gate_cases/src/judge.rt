//! Judges whether texts of plans, commands, networks and traffic give the wanted results.
use crate::bases::{Bases, make_bases};
use crate::outcome::{Finding, judge_part};
use crate::reading::read_text;
use crate::text_pieces::add;
use app_failure::{Failure, print};
use bridge_text::TextBuilder;
use std::alloc::Global;
use std::rt::Files;

/// Judges files of cases. `words` has the paths of the base plan's pieces, of more lines for commands, and of the files. Returns whether
/// all cases hold.
pub fn judge_files(
    rt: &(impl AllocGlobal + Print + Files),
    words: &[String],
) -> Result<bool, Failure> {
    let [pieces, more, files @ ..] = words else {
        return Err(Failure::Words);
    };
    let pieces = read_text(rt, pieces.as_str())?;
    let more = read_text(rt, more.as_str())?;
    let bases = make_bases(rt.alloc(), pieces, more.as_str())?;
    judge_all(rt, &bases, files)
}

/// Judges files of cases, and returns whether all hold.
fn judge_all(
    rt: &(impl AllocGlobal + Print + Files),
    bases: &Bases,
    files: &[String],
) -> Result<bool, Failure> {
    let mut all = !files.is_empty();
    for file in files {
        all &= judge_file(rt, bases, file.as_str())?;
    }
    Ok(all)
}

/// Judges the cases of a file, prints the report, and returns whether all hold.
fn judge_file(
    rt: &(impl AllocGlobal + Print + Files),
    bases: &Bases,
    file: &str,
) -> Result<bool, Failure> {
    let text = read_text(rt, file)?;
    let mut said = TextBuilder::new(rt.alloc());
    let holds = judge_cases(rt.alloc(), &mut said, bases, file, text.as_str());
    print_text(rt, said)?;
    Ok(holds)
}

/// Prints a text on standard output.
pub fn print_text(
    rt: &(impl AllocGlobal + Print),
    said: TextBuilder<Global>,
) -> Result<(), Failure> {
    match said.finish() {
        Ok(said) => print(rt, said.as_str()),
        Err(_) => Err(Failure::NoMemory),
    }
}

/// Judges the cases of a file. Adds a line for each case that differs, then the counts.
fn judge_cases(
    alloc: Global,
    said: &mut TextBuilder<Global>,
    bases: &Bases,
    file: &str,
    text: &str,
) -> bool {
    let (mut line, mut cases, mut differ) = (1u64, 0u64, 0u64);
    let text = text.strip_suffix('\n').unwrap_or(text);
    for part in text.split("\n==") {
        match judge_part(alloc, bases, part) {
            Finding::Remark => {}
            Finding::Holds => cases = cases.saturating_add(1),
            Finding::Differs(what) => {
                differ = differ.saturating_add(1);
                said.put_template("{a}:{0}: ", &[line], &[file]);
                add(said, what);
                said.put("\n");
            }
        }
        line = line.saturating_add(part.split('\n').count() as u64);
    }
    said.put_template(
        "{a}: {0} cases hold, {1} differ\n",
        &[cases, differ],
        &[file],
    );
    cases > 0 && differ == 0
}
