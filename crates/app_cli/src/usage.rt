//! Usages and options of the commands, for explanations of refused arguments.

ghost use Rattle.std.specs.Prelude.{◌≡◌, ◌||◌, IfOk, IfSome, OnOk, map};
ghost use Rattle.std.specs.Option.{is_some};
ghost use Rattle.std.specs.List.Sorted.{IsPermutation};
ghost use Rattle.clap.specs.Words.{Text};
ghost use Rattle.app_cli.specs.Usages.{all_rules, command_names, has_option, is_among, is_option_named, option_value, rule_of_word};

use crate::command::{Argument, Description, Form, all_descriptions};
use bridge_limits::NoMemory;
use std::alloc::Global;

/// Usage of a command, for explanations of refused arguments.
#[derive(Clone, Copy)]
pub struct Usage {
    /// Name of the command.
    pub name: &'static str,
    /// Usage: the command's arguments and options, except `--explain`.
    pub line: &'static str,
    /// Number of required arguments.
    pub places: usize,
    /// Possible faults if the number of arguments is right.
    pub reason: &'static str,
}

/// Returns the number of required arguments in `words`. Users give them without an option's name. `usage_of_command` calls it.
fn count_operands(words: &[Argument]) -> usize {
    let mut count = 0usize;
    for word in words {
        if matches!(word.form, Form::Place) {
            count = count.saturating_add(1);
        }
    }
    count
}

/// Returns the usage of a command, from the table of commands. `find_usage` calls it.
fn usage_of_command(command: &'static Description) -> Usage
    ensures { result.name.now ≡ command.now.name.now }
{
    Usage {
        name: command.name,
        line: command.call,
        places: count_operands(command.words),
        reason: command.reason,
    }
}

/// Returns the usage of the command with name `name`; `None` if no command has this name. `put_usage` and `put_command_refusal` of
/// `show_explain` call it.
pub fn find_usage(name: &str) -> Option<Usage>
    ensures name { IfSome result (λ usage. usage.name.now ≡ name.now) }
    ensures known { is_some result ≡ is_among name.now command_names }
{
    for command in all_descriptions() {
        if command.name == name {
            return Some(usage_of_command(command));
        }
    }
    None
}

/// Returns the names of the commands, sorted, for the search of the nearest name. `put_usages` of `show_explain` calls it.
pub fn command_names(alloc: Global) -> Result<Vec<&'static str>, NoMemory>
    ensures { IfOk result (λ names. IsPermutation (map (λ name. name.now) names.items) command_names) }
{
    let mut names = Vec::new(alloc);
    for command in all_descriptions() {
        names.push(command.name)?;
    }
    names.sort()?;
    Ok(names)
}

/// Returns whether an argument is an option, with or without value. `is_option_named` and `push_option` call it.
fn is_option(word: &Argument) -> bool
    ensures { result ≡ is_some (rule_of_word word.now).long }
{
    matches!(word.form, Form::Choice | Form::Flag)
}

/// Returns whether an argument is the option with name `name`. `find_option` calls it.
fn is_option_named(word: &Argument, name: &str) -> bool
    ensures { result ≡ is_option_named name.now (rule_of_word word.now) }
{
    is_option(word) & (word.id == name)
}

/// Returns whether option `name` of a command with arguments `words` has a value. Returns `None` if the command lacks the option.
/// `has_value` calls it.
fn find_option(words: &[Argument], name: &str) -> Option<bool>
    ensures { result ≡ option_value name.now (map rule_of_word words.now) }
{
    for word in words {
        if is_option_named(word, name) {
            return Some(matches!(word.form, Form::Choice));
        }
    }
    None
}

/// Returns whether option `name`, without its `--`, has a value. Returns `None` if no command has the option. `has_option_value` and
/// `count_operands` of `show_explain` call it.
pub fn has_value(name: &str) -> Option<bool>
    ensures { result ≡ option_value name.now all_rules }
{
    for command in all_descriptions() {
        let found = find_option(command.words, name);
        if found.is_some() {
            return found;
        }
    }
    None
}

/// Appends the name of `word` to `names`, if `word` is an option and its name isn't in `names` yet: several commands can have one option.
/// `push_options` calls it.
fn push_option(names: &mut Vec<&'static str>, word: &'static Argument) -> Result<(), NoMemory>
    ensures { OnOk result ((name : Text) → is_among name (map (λ known. known.now) names.new.items)
        ≡ (is_among name (map (λ known. known.now) names.old.items) || is_option_named name (rule_of_word word.now))) }
{
    if is_option(word) && !names.contains(&word.id) {
        names.push(word.id)?;
    }
    Ok(())
}

/// Appends to `names` the name of each option in `words` that isn't in `names` yet. `option_names` calls it.
fn push_options(names: &mut Vec<&'static str>, words: &'static [Argument]) -> Result<(), NoMemory>
    ensures { OnOk result ((name : Text) → is_among name (map (λ known. known.now) names.new.items)
        ≡ (is_among name (map (λ known. known.now) names.old.items) || has_option name (map rule_of_word words.now))) }
{
    for word in words {
        push_option(names, word)?;
    }
    Ok(())
}

/// Returns the names of all commands' options, without `--`, sorted, for the search of the nearest name. `put_unknown_option` of
/// `show_explain` calls it.
pub fn option_names(alloc: Global) -> Result<Vec<&'static str>, NoMemory>
    ensures { IfOk result (λ names. (name : Text) → is_among name (map (λ known. known.now) names.items)
        ≡ has_option name all_rules) }
{
    let mut names = Vec::new(alloc);
    for command in all_descriptions() {
        push_options(&mut names, command.words)?;
    }
    names.sort()?;
    Ok(names)
}
