//! Carries out the script lines that show, compare or change files.

use bridge_capture::hex_lines;
use bridge_text::TextBuilder;
use std::alloc::Global;
use std::fs;
use std::rt::Files;

/// Reads the octets of a file. A failure discards `said`, so the script ends.
pub fn read_octets<H: AllocGlobal + Files>(
    rt: &H,
    said: &mut TextBuilder<Global>,
    path: &str,
) -> Vec<u8> {
    match fs::read(rt, path) {
        Ok(octets) => octets,
        Err(_) => {
            said.discard();
            Vec::new(rt.alloc())
        }
    }
}

/// Reads a text file. A failure discards `said`, so the script ends.
pub fn read_text<H: AllocGlobal + Files>(
    rt: &H,
    said: &mut TextBuilder<Global>,
    path: &str,
) -> String {
    match fs::read_to_string(rt, path) {
        Ok(text) => text,
        Err(_) => {
            said.discard();
            String::new(rt.alloc())
        }
    }
}

/// Splits `rest` at its first space. If `rest` has no space, discards `said`.
pub fn split_pair<'a>(said: &mut TextBuilder<Global>, rest: &'a str) -> (&'a str, &'a str) {
    match rest.split_once(' ') {
        Some(pair) => pair,
        None => {
            said.discard();
            (rest, "")
        }
    }
}

/// Adds the text of a file: `show FILE`.
pub fn show<H: AllocGlobal + Files>(rt: &H, said: &mut TextBuilder<Global>, path: &str) {
    let text = read_text(rt, said, path);
    said.put(text.as_str());
}

/// Adds the first `NUMBER` lines of a file, then its length in octets: `first NUMBER FILE`.
pub fn show_first_lines<H: AllocGlobal + Files>(
    rt: &H,
    said: &mut TextBuilder<Global>,
    rest: &str,
) {
    let (number, path) = split_pair(said, rest);
    let Ok(number) = number.parse::<usize>() else {
        return said.discard();
    };
    let text = read_text(rt, said, path);
    for line in text.as_str().lines().take(number) {
        said.put_template("{a}\n", &[], &[line]);
    }
    said.put_template("{a}: {0} octets\n", &[text.len() as u64], &[path]);
}

/// Adds the octets of a capture in hexadecimal: `octets FILE`.
pub fn show_octets<H: AllocGlobal + Files>(rt: &H, said: &mut TextBuilder<Global>, path: &str) {
    let octets = read_octets(rt, said, path);
    match hex_lines(rt.alloc(), &octets) {
        Ok(lines) => said.put(lines.as_str()),
        Err(_) => said.discard(),
    }
}

/// Adds the length of each file in octets: `count FILE ..`.
pub fn show_lengths<H: AllocGlobal + Files>(rt: &H, said: &mut TextBuilder<Global>, paths: &str) {
    for path in paths.split(' ') {
        let length = read_octets(rt, said, path).len() as u64;
        said.put_template("{a} {0} octets\n", &[length], &[path]);
    }
}

/// Adds whether two files have equal contents, and the length of the second file: `same FILE FILE`.
pub fn show_if_same<H: AllocGlobal + Files>(rt: &H, said: &mut TextBuilder<Global>, rest: &str) {
    let (one, other) = split_pair(said, rest);
    let octets = read_octets(rt, said, one);
    let others = read_octets(rt, said, other);
    let word = if octets == others {
        "the same"
    } else {
        "other"
    };
    said.put_template(
        "{a}: {b}, {0} octets\n",
        &[others.len() as u64],
        &[other, word],
    );
}

/// Adds the lines of a file that contain a text: `holding TEXT FILE`.
pub fn show_matching_lines<H: AllocGlobal + Files>(
    rt: &H,
    said: &mut TextBuilder<Global>,
    rest: &str,
) {
    let Some((part, path)) = rest.rsplit_once(' ') else {
        return said.discard();
    };
    let text = read_text(rt, said, path);
    for line in text.as_str().lines() {
        if line.contains(part) {
            said.put_template("{a}\n", &[], &[line]);
        }
    }
}

/// Makes a folder and its parent folders (`folder PATH`), or removes a file (`remove PATH`).
pub fn change<H: Files>(rt: &H, said: &mut TextBuilder<Global>, word: &str, path: &str) {
    let done = match word {
        "folder" => fs::create_dir_all(rt, path),
        _ => fs::remove_file(rt, path),
    };
    if done.is_err() {
        said.discard();
    }
}

/// Makes a hard link to a file (`link FILE PATH`), or copies a file (`copy FILE PATH`).
pub fn link_or_copy<H: Files>(rt: &H, said: &mut TextBuilder<Global>, word: &str, rest: &str) {
    let (file, path) = split_pair(said, rest);
    let is_done = match word {
        "link" => fs::hard_link(rt, file, path).is_ok(),
        _ => fs::copy(rt, file, path).is_ok(),
    };
    if !is_done {
        said.discard();
    }
}

/// Copies a file and appends `#` up to `NUMBER` octets: `pad NUMBER FILE FILE`.
pub fn pad<H: AllocGlobal + Files>(rt: &H, said: &mut TextBuilder<Global>, rest: &str) {
    let (number, files) = split_pair(said, rest);
    let (from, to) = split_pair(said, files);
    let Ok(number) = number.parse::<usize>() else {
        return said.discard();
    };
    let mut octets = read_octets(rt, said, from);
    if octets.len() > number || octets.resize(number, b'#').is_err() {
        return said.discard();
    }
    if fs::write(rt, to, &octets).is_err() {
        said.discard();
    }
}
