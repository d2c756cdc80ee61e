//! Explains why arguments are refused. `clap` has refused them; this file finds the fault again, to name a remedy.
ghost use Rattle.std.specs.Prelude.{IfOk, codes, string_bytes};
ghost use Rattle.bridge_text.specs.PathPrefix.{StartsWithName};

use crate::explanation::fill_with_two_words;
use app_cli::{OPTIONS, Usage, command_names, find_usage, has_value, option_names};
use bridge_limits::NoMemory;
use bridge_text::{Said, TextBuilder, fill_with_word, finish_with_path, nearest_name, put_text};
use std::alloc::Global;

/// Returns the name of an option, with the `--`, without `=` and the value. Returns `None` if the argument isn't an option.
/// `unknown_option`, `first_operand` and 4 more call it.
fn option_name(word: &str) -> Option<&str> {
    if !word.starts_with("--") || word == "--" {
        return None;
    }
    match word.split_once('=') {
        Some((name, _)) => Some(name),
        None => Some(word),
    }
}

/// Explains why the arguments are refused: the first fault, and the command's usage. `clap` has refused them before. `--explain` prints the
/// explanation. `explain_words_fault` of `app_commands` calls it.
pub fn explain_arguments(alloc: Global, words: &[String]) -> Result<String, NoMemory>
    ensures { IfOk result (λ said. StartsWithName (codes "command line: ") (string_bytes said)) }
{
    let mut said = TextBuilder::new(alloc);
    match (unknown_option(words), first_operand(words)) {
        (Some(name), _) => put_unknown_option(alloc, &mut said, name),
        (None, Some(word)) => put_command_refusal(alloc, &mut said, words, word),
        (None, None) => put_usages(alloc, &mut said, None),
    }
    finish_with_path(alloc, "command line: ", said)
}

/// Explanation of a request for part of a network's picture, at the path `{a}` of the network.
const PART_OF_NETWORK: &str =
    ": This file describes a network. The options --from, --to and --ports are for plans: `tsnbridge picture PLAN FILE` and `tsnbridge run PLAN IN OUT --picture FILE` take them.\nWithout these options, `tsnbridge picture {a} FILE` draws the network.\n";

/// Explains why `picture` refuses to draw part of a network: only plans have the options for a part. The explanation begins with `path`.
/// `explain_picture_fault` of `app_networks` calls it.
pub fn explain_part(alloc: Global, path: &str) -> Result<String, NoMemory>
    ensures { IfOk result (λ said. StartsWithName path.now (string_bytes said)) }
{
    let mut said = TextBuilder::new(alloc);
    said.put_template(PART_OF_NETWORK, &[], &[path]);
    finish_with_path(alloc, path, said)
}

/// Returns whether option `name`, with its `--`, needs a value. Returns `None` if no command has the option. `unknown_option`,
/// `count_operands` and `option_fault` call it.
fn has_option_value(name: &str) -> Option<bool> {
    match name.strip_prefix("--") {
        Some(name) => has_value(name),
        None => None,
    }
}

/// Returns the first option among the arguments that no command has. `None` if every option belongs to a command. Arguments after `--`
/// aren't options. `explain_arguments` calls it.
fn unknown_option(words: &[String]) -> Option<&str> {
    for word in words {
        if word.as_str() == "--" {
            return None;
        }
        if let Some(name) = option_name(word.as_str()) {
            if has_option_value(name).is_none() {
                return Some(name);
            }
        }
    }
    None
}

/// Returns the first argument that isn't an option: it should be a command. Returns `None` if all arguments are options.
/// `explain_arguments` calls it.
fn first_operand(words: &[String]) -> Option<&str> {
    for word in words {
        if option_name(word.as_str()).is_none() {
            return Some(word.as_str());
        }
    }
    None
}

/// Writes that an option is unknown, and the nearest option. `explain_arguments` calls it.
fn put_unknown_option(alloc: Global, said: &mut Said, name: &str) {
    put_text(said, name);
    said.put(" isn't an option.\n");
    let Ok(names) = option_names(alloc) else {
        return said.discard();
    };
    let word = name.strip_prefix("--").unwrap_or(name);
    match nearest_name(alloc, said, "--", word, &names) {
        Some(found) => fill_with_word(said, "The nearest option is --{a}.\n", 0, found),
        None => said.put(OPTIONS),
    }
}

/// Writes that the command `word` is unknown, or missing if `None`, and the usage of the nearest command. Writes all usages if no command
/// is near. `explain_arguments` and `put_command_refusal` call it.
fn put_usages(alloc: Global, said: &mut Said, word: Option<&str>) {
    let Ok(names) = command_names(alloc) else {
        return said.discard();
    };
    let mut nearest = None;
    if let Some(word) = word {
        put_text(said, word);
        said.put(" isn't a command.\n");
        nearest = nearest_name(alloc, said, "", word, &names);
    } else {
        said.put("A command is missing.\n");
    }
    if let Some(name) = nearest {
        return put_usage(said, "The nearest command is: tsnbridge {a}\n", name);
    }
    for name in &names {
        put_usage(said, "Usage: tsnbridge {a}\n", *name);
    }
}

/// Writes `template` with the usage of the command with name `name`. Writes nothing for an unknown name. `put_usages` calls it.
fn put_usage(said: &mut Said, template: &str, name: &str) {
    if let Some(call) = find_usage(name) {
        fill_with_word(said, template, 0, call.line);
    }
}

/// Returns the number of arguments after the command that aren't options or their values. A wrong number is reported before other faults.
/// `put_command_refusal` calls it.
fn count_operands(words: &[String]) -> usize {
    let mut count = 0usize;
    let mut is_value = false;
    for word in words {
        let word = word.as_str();
        if is_value {
            is_value = false;
        } else if let Some(has_value) = has_option_value(word) {
            is_value = has_value;
        } else if option_name(word).is_none() && word != "--" {
            count = count.saturating_add(1);
        }
    }
    count.saturating_sub(1)
}

/// Why an option is refused, in the order of the tests.
#[derive(Clone, Copy)]
enum OptionFault {
    /// The option stands before the command.
    Early,
    /// The command doesn't have the option.
    Other,
    /// The option occurs twice.
    Twice,
    /// The option lacks its value.
    NoValue,
    /// The option has a value after `=` but takes none.
    Value,
}

/// Start of the reasons of most usages, which applies to any option. A sentence about one option replaces it.
const ANY_OPTION: &str = "An option is unknown here, repeated, or lacks its value.\n";

/// Returns the name, without its `--`, of the option at the start of `part`: the rest of a command's usage line after `[--`. `has_option`
/// and `put_options` call it.
fn called_option(part: &str) -> &str {
    let front = match part.split_once(']') {
        Some((front, _)) => front,
        None => part,
    };
    match front.split_once(' ') {
        Some((name, _)) => name,
        None => front,
    }
}

/// Returns whether a command has option `name`, with the option's `--`, by the command's usage line. Every command has `--explain`.
/// `option_fault` and `put_options` call it.
fn has_option(call: &Usage, name: &str) -> bool {
    if name == "--explain" {
        return true;
    }
    let Some(name) = name.strip_prefix("--") else {
        return false;
    };
    for part in call.line.split("[--").skip(1) {
        if called_option(part) == name {
            return true;
        }
    }
    false
}

/// Returns whether one of the arguments is option `name`, with or without `=` and a value. `option_fault` calls it to find repeated
/// options.
fn has_word(words: &[String], name: &str) -> bool {
    for word in words {
        if option_name(word.as_str()) == Some(name) {
            return true;
        }
    }
    false
}

/// Returns whether an argument can be the value of the option before it: it exists and isn't an option. `option_fault` calls it.
fn is_value(word: Option<&String>) -> bool {
    match word {
        Some(word) => option_name(word.as_str()).is_none(),
        None => false,
    }
}

/// Returns why option `name`, the argument with index `place`, is refused. `None` if the option isn't at fault. `is_early` is true if the
/// command comes later. `wrong_option` calls it.
fn option_fault(
    words: &[String],
    place: usize,
    name: &str,
    call: &Usage,
    is_early: bool,
) -> Option<OptionFault> {
    let word = words.get(place)?;
    let has_sign = word.as_str() != name;
    let before = words.get(..place).unwrap_or(&[]);
    let next = words.get(place.saturating_add(1));
    if is_early {
        return Some(OptionFault::Early);
    }
    if !has_option(call, name) {
        return Some(OptionFault::Other);
    }
    if has_word(before, name) {
        return Some(OptionFault::Twice);
    }
    match has_option_value(name) {
        Some(true) if !has_sign && !is_value(next) => Some(OptionFault::NoValue),
        Some(false) if has_sign => Some(OptionFault::Value),
        _ => None,
    }
}

/// Returns the first refused option among a command's arguments and why it is refused. Returns `None` if no option before `--` is at fault.
/// `put_reason` calls it.
fn wrong_option<'a>(words: &'a [String], call: &Usage) -> Option<(&'a str, OptionFault)> {
    let mut place = 0usize;
    let mut is_early = true;
    for word in words {
        let word = word.as_str();
        if word == "--" {
            return None;
        }
        match option_name(word) {
            Some(name) => {
                if let Some(fault) = option_fault(words, place, name, call, is_early) {
                    return Some((name, fault));
                }
            }
            None => is_early = false,
        }
        place = place.saturating_add(1);
    }
    None
}

/// Writes the options of a command, each once, for the explanation of an option that it doesn't have. `put_wrong` calls it.
fn put_options(said: &mut Said, call: &Usage) {
    fill_with_word(said, "The options of `{a}` are --explain", 0, call.name);
    let mut last = "";
    for part in call.line.split("[--").skip(1) {
        let name = called_option(part);
        if name != last && name != "strict" {
            fill_with_word(said, ", --{a}", 0, name);
        }
        last = name;
    }
    if has_option(call, "--strict") {
        said.put(", --strict");
    }
    said.put(".\n");
}

/// Writes why an option of a command is refused, and what to change. `put_reason` calls it.
fn put_wrong(said: &mut Said, call: &Usage, name: &str, fault: OptionFault) {
    let template = match fault {
        OptionFault::Early =>
            "The option {a} stands before the command `{b}`. Write it after the command.\n",
        OptionFault::Other => "The command `{b}` has no option {a}.\n",
        OptionFault::Twice => "The option {a} stands there twice. Write it once.\n",
        OptionFault::NoValue => "The option {a} lacks its value. Write the value after it.\n",
        OptionFault::Value => "The option {a} has no value. Remove `=` and the value.\n",
    };
    fill_with_two_words(said, template, &[], name, call.name);
    if matches!(fault, OptionFault::Other) {
        put_options(said, call);
    }
}

/// Returns a command's reason without its first sentence, which is about options. If the reason has no other sentence, returns all of it.
/// `put_reason` calls it if no option is at fault.
fn reason_alone(reason: &'static str) -> &'static str {
    match reason.strip_prefix(ANY_OPTION) {
        Some(rest) if !rest.is_empty() => rest,
        _ => reason,
    }
}

/// Writes why arguments of the right number are refused: the option at fault, or the command's own reason if no option is at fault.
/// `put_command_refusal` calls it.
fn put_reason(said: &mut Said, words: &[String], call: &Usage) {
    match wrong_option(words, call) {
        Some((name, fault)) => put_wrong(said, call, name, fault),
        None => said.put(reason_alone(call.reason)),
    }
}

/// Writes why the arguments of command `word` are refused: a wrong number of operands, otherwise its reason. If `word` is no command,
/// writes usages. `explain_arguments` calls it.
fn put_command_refusal(alloc: Global, said: &mut Said, words: &[String], word: &str) {
    let Some(call) = find_usage(word) else {
        return put_usages(alloc, said, Some(word));
    };
    let count = count_operands(words);
    if count == call.places {
        put_reason(said, words, &call);
    } else {
        let template = "`{a}` needs {0} argument(s), but got {1}.\n";
        said.put_template(template, &[call.places as u64, count as u64], &[call.name]);
    }
    fill_with_word(said, "Usage: tsnbridge {a}\n", 0, call.line);
}
