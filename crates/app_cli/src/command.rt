//! The commands and their arguments in one table, from which `clap` reads arguments and writes the help.
ghost use Rattle.std.specs.Prelude.{◌≡◌, ◌≢◌, [], IfOk, IfErr, false, map, string_bytes, fold};
ghost use Rattle.clap.specs.Words.{FailsBy, app_of, fault_of, kind_of, rule_of, subcommand_of, subcommand_rows_of, with_subcommand};
ghost use Rattle.clap.specs.declared.builder.command.Command.TheViews.{out-Command as fields_of};
ghost use Rattle.app_cli.specs.CommandLine.{bounds_command, check_command, command_list, commands, described, net_command, picture_command, program, rule_in, run_command, wire_command, with_word};

use clap::error::ErrorKind;
use clap::{Arg, ArgAction, ArgMatches, Command, Error};
use std::alloc::{AllocError, Global};

/// How an argument of a command is written.
#[derive(Clone, Copy)]
pub enum Form {
    /// Required, identified by its order among the arguments.
    Place,
    /// Optional, identified by its order after the required arguments.
    Extra,
    /// Optional, as the value after an option's name.
    Choice,
    /// Optional, as the name of an option without a value.
    Flag,
}

/// Argument or option of a command.
#[derive(Clone, Copy)]
pub struct Argument {
    /// Name by which the value is read; an option is written as `--` and this name.
    pub id: &'static str,
    /// Name of the value in the help.
    pub value: &'static str,
    /// How the argument is written.
    pub form: Form,
    /// Meaning and range, for the help.
    pub help: &'static str,
}

/// Command of the program, as one row of the table of commands. `clap`'s command, the usage and the help are made from it.
#[derive(Clone, Copy)]
pub struct Description {
    /// Name of the command.
    pub name: &'static str,
    /// Usage: the command's arguments and options, except `--explain`.
    pub call: &'static str,
    /// Purpose of the command, for the help.
    pub about: &'static str,
    /// Arguments and options of the command.
    pub words: &'static [Argument],
    /// Sentences about possible faults of the arguments if their number is right, for explanations.
    pub reason: &'static str,
    /// End of the help: example and exit statuses.
    pub after: &'static str,
}

/// The argument `PLAN`, which several commands have: the plan of a bridge.
const PLAN: Argument = Argument {
    id: "plan",
    value: "PLAN",
    form: Form::Place,
    help: "file of the plan (TOML, at most 1,048,576 octets)",
};

/// The option `--explain`, which each command has.
const EXPLAIN: Argument = Argument {
    id: "explain",
    value: "",
    form: Form::Flag,
    help: "explain a fault on standard error; check and run also describe an accepted plan",
};

/// The option `--strict`, which makes warnings errors.
const STRICT: Argument = Argument {
    id: "strict",
    value: "",
    form: Form::Flag,
    help: "treat warnings as errors (status 1)",
};

/// Reason of commands whose arguments can be wrong only in their options.
const OPTIONS_ALONE: &str = "An option is unknown here, repeated, or lacks its value.\n";

const WIRE: Description = Description {
    name: "wire",
    call: "wire MBPS ROOM IN OUT",
    about: "Send a capture through one queue",
    words: &[
        Argument {
            id: "mbps",
            value: "MBPS",
            form: Form::Place,
            help: "speed of the link in Mb/s: 10, 100, 1000, 2500 or 10000",
        },
        Argument {
            id: "room",
            value: "ROOM",
            form: Form::Place,
            help: "capacity of the queue in frames: 1 to 4096",
        },
        Argument {
            id: "input",
            value: "IN",
            form: Form::Place,
            help: "input capture (classic pcap, not pcapng), or - for standard input",
        },
        Argument {
            id: "output",
            value: "OUT",
            form: Form::Place,
            help: "output capture (classic pcap, times in ns), or - for standard output",
        },
        EXPLAIN,
    ],
    reason: "MBPS must be 10, 100, 1000, 2500 or 10000. ROOM must be a whole number from 1 to 4096.\n",
    after: "\
Example:
  tsnbridge wire 1000 4 in.pcap out.pcap

Statuses:
  0  success: one line counts the frames
  2  the capture is refused
  3  a file can't be opened, read or written, or memory is exhausted
  4  bad arguments",
};

const CHECK: Description = Description {
    name: "check",
    call: "check PLAN [--strict]",
    about: "Check whether a plan protects its streams",
    words: &[
        Argument {
            id: "plan",
            value: "PLAN",
            form: Form::Place,
            help: "file of the plan (TOML, at most 1,048,576 octets), or - for standard input",
        },
        STRICT,
        EXPLAIN,
    ],
    reason: OPTIONS_ALONE,
    after: "\
Example:
  tsnbridge check examples/base.toml

Statuses:
  0  the plan is accepted: one line counts its protected filters
  1  the plan is refused, or has a warning (--strict)
  3  a file can't be opened, read or written, or memory is exhausted
  4  bad arguments",
};

const RUN: Description = Description {
    name: "run",
    call: "run PLAN IN OUT [--commands FILE] [--delays FILE] [--frames FILE] [--picture FILE [--from NS] [--to NS] [--ports LIST] [--filters LIST]] [--strict]",
    about: "Run captures through the bridge of a plan",
    words: &[
        PLAN,
        Argument {
            id: "input",
            value: "IN",
            form: Form::Place,
            help: "input folder with <port>.pcap for each port of the plan",
        },
        Argument {
            id: "output",
            value: "OUT",
            form: Form::Place,
            help: "output folder for <port>.pcap and report.txt; must exist and differ from IN",
        },
        Argument {
            id: "commands",
            value: "FILE",
            form: Form::Choice,
            help: "file of commands that clear flags (TOML, at most 1,048,576 octets)",
        },
        Argument {
            id: "delays",
            value: "FILE",
            form: Form::Choice,
            help: "also write delays and losses by filter and port (CSV)",
        },
        Argument {
            id: "frames",
            value: "FILE",
            form: Form::Choice,
            help: "also write a row for each copy of each frame (CSV)",
        },
        Argument {
            id: "picture",
            value: "FILE",
            form: Form::Choice,
            help: "also draw the run (SVG)",
        },
        Argument {
            id: "from",
            value: "NS",
            form: Form::Choice,
            help: "start of the picture in ns (default: first event)",
        },
        Argument {
            id: "to",
            value: "NS",
            form: Form::Choice,
            help: "end of the picture in ns (default: last event)",
        },
        Argument {
            id: "ports",
            value: "LIST",
            form: Form::Choice,
            help: "ports in the picture, for example 1,3 (default: all)",
        },
        Argument {
            id: "filters",
            value: "LIST",
            form: Form::Choice,
            help: "filters whose frames the picture shows, for example 10,20 (default: all)",
        },
        Argument {
            id: "strict",
            value: "",
            form: Form::Flag,
            help: "status 1 on a warning (nothing runs) or if a protected filter loses frames",
        },
        EXPLAIN,
    ],
    reason: "An option is unknown here, repeated, or lacks its value.\nOptions --from, --to, --ports and --filters need --picture. Times are in ns, below 4 * 10^18, and --from is earlier than --to. Lists are numbers with commas between them, for example 1,3.\n",
    after: "\
Example:
  mkdir out
  tsnbridge run examples/base.toml examples/gated out

Statuses:
  0  success: one line counts the frames
  1  the plan or its commands are refused; with --strict also if the plan has a warning or a
     protected filter loses frames
  2  a capture is refused
  3  a file can't be opened, read or written, or memory is exhausted
  4  bad arguments",
};

const PICTURE: Description = Description {
    name: "picture",
    call: "picture PLAN FILE [--from NS] [--to NS] [--ports LIST]",
    about: "Draw the windows and the stream gates of a plan, or the streams of a network",
    words: &[
        Argument {
            id: "plan",
            value: "PLAN",
            form: Form::Place,
            help: "file of the plan, or of a network (TOML, at most 1,048,576 octets)",
        },
        Argument {
            id: "file",
            value: "FILE",
            form: Form::Place,
            help: "output file (SVG), or - for standard output",
        },
        Argument {
            id: "from",
            value: "NS",
            form: Form::Choice,
            help: "for plans, start of the picture in ns (default: start of the hypercycle)",
        },
        Argument {
            id: "to",
            value: "NS",
            form: Form::Choice,
            help: "for plans, end of the picture in ns (default: end of the hypercycle)",
        },
        Argument {
            id: "ports",
            value: "LIST",
            form: Form::Choice,
            help: "for plans, ports to draw without stream gates, for example 1,3 (default: all ports and gates)",
        },
        EXPLAIN,
    ],
    reason: "An option is unknown here, repeated, or lacks its value.\nOptions --from and --to are times in ns, below 4 * 10^18, and --from is earlier than --to. Option --ports is a list of numbers with commas between them, for example 1,3.\n",
    after: "\
Example:
  tsnbridge picture examples/base.toml base.svg

Statuses:
  0  success
  1  the text of the plan, or the network, is refused
  3  a file can't be opened, read or written, or memory is exhausted
  4  bad arguments",
};

const BOUNDS: Description = Description {
    name: "bounds",
    call: "bounds PLAN [--traffic FILE] [--strict]",
    about: "Print the delay bounds of protected streams",
    words: &[
        PLAN,
        Argument {
            id: "traffic",
            value: "FILE",
            form: Form::Choice,
            help: "file of talkers (TOML, at most 1,048,576 octets)",
        },
        STRICT,
        EXPLAIN,
    ],
    reason: OPTIONS_ALONE,
    after: "\
Prints a line for each queue of each protected filter, and for each queue that a group shares. The
bound is the longest time in ns from a frame's arrival to the end of its transmission and gap, whatever
any device sends. The number after padded, if any, is the bound for frames of at least 60 octets. A line
marked coarse counts all arrival times, because the lists of gate and port have no short common cycle.
With --traffic, the program also prints the worst and the best time of each talker.

Example:
  tsnbridge bounds examples/base.toml

Statuses:
  0  the plan is accepted, and all traffic passes in time
  1  the plan or the traffic is refused, or a frame may be refused, late or forwarded nowhere; with
     --strict also if no filter is protected or grouped, or a shared queue is marked
  3  a file can't be opened, read or written, or memory is exhausted
  4  bad arguments",
};

const NET: Description = Description {
    name: "net",
    call: "net check NET [--strict], or tsnbridge net NET IN OUT [--picture FILE] [--strict]",
    about: "Check or run a network of bridges",
    words: &[
        Argument {
            id: "first",
            value: "check|NET",
            form: Form::Place,
            help: "check, or the file of the network to run (TOML, at most 1,048,576 octets)",
        },
        Argument {
            id: "second",
            value: "NET|IN",
            form: Form::Place,
            help: "after check: the file of the network; else: input folder with BRIDGE/PORT.pcap for each open port",
        },
        Argument {
            id: "output",
            value: "OUT",
            form: Form::Extra,
            help: "output folder for captures, reports and tables",
        },
        Argument {
            id: "picture",
            value: "FILE",
            form: Form::Choice,
            help: "also draw the run (SVG)",
        },
        Argument {
            id: "strict",
            value: "",
            form: Form::Flag,
            help: "status 1 on a warning (nothing runs), a lost frame or a missed deadline",
        },
        EXPLAIN,
    ],
    reason: "An option is unknown here, repeated, or lacks its value.\nWithout `check`, the command needs NET, IN and OUT.\n",
    after: "\
Two forms:
  tsnbridge net check NET [--strict]
  tsnbridge net NET IN OUT [--picture FILE] [--strict]

Examples:
  tsnbridge net check examples/line/network.toml
  tsnbridge net examples/network/network.toml examples/network out

Paths of plans are absolute, or relative to the network's file. IN has a folder for each bridge:
1.pcap .. for its open ports, and commands.toml if it receives commands.

Statuses:
  0  the network is accepted, or its run is complete
  1  the network, a plan or commands are refused; after `net check` also if a stream is refusable or
     late; with --strict also after a warning, a lost frame or a missed deadline
  2  a capture is refused, or frames loop and the run doesn't settle
  3  a file can't be opened, read or written, or memory is exhausted
  4  bad arguments",
};

const PROGRAM: Description = Description {
    name: "tsnbridge",
    call: "",
    about: "Check and simulate time-aware Ethernet bridges exactly (IEEE 802.1Q-2018)",
    words: &[],
    reason: "",
    after: "\
Without arguments, tsnbridge reads a capture as hexadecimal digits from standard input, sends it
through a queue for 4 frames at 1000 Mb/s and prints the result.

Example:
  tsnbridge run examples/base.toml examples/gated out

Statuses:
  0  success
  1  a plan, its commands or a network are refused
  2  a text or a capture is refused, or a network doesn't settle
  3  a file can't be opened, read or written, or memory is exhausted
  4  bad arguments; also after --help and --version",
};

/// Options and the commands that have them. The explanation of an unknown option shows this text if no option has a similar name.
pub const OPTIONS: &str =
    "The options are:\n  --explain for all commands\n  --strict for check, run, bounds and net\n  --picture FILE for run and net\n  --from NS, --to NS and --ports LIST for run and picture\n  --commands FILE, --delays FILE, --frames FILE and --filters LIST for run\n  --traffic FILE for bounds\n";

/// Version of the program.
const VERSION: &str = "1.0.0";

/// Returns the descriptions of all commands, in the order of the help. `commands_of`, `push_command_help`, and functions of `usage.rt` call
/// it.
pub(crate) fn all_descriptions() -> [&'static Description; 6]
    ensures { map (λ d. described d.now) result ≡ command_list }
{
    [
        wire_description(),
        check_description(),
        run_description(),
        picture_description(),
        bounds_description(),
        net_description(),
    ]
}

/// Returns the command `wire`: arguments, usage, help texts. The contract states that it is the definition `wire_command`.
/// `all_descriptions` calls it.
fn wire_description() -> &'static Description
    ensures { described result.now ≡ wire_command }
{
    &WIRE
}

/// Returns the command `check`: arguments, usage, help texts. The contract states that it is the definition `check_command`.
/// `all_descriptions` calls it.
fn check_description() -> &'static Description
    ensures { described result.now ≡ check_command }
{
    &CHECK
}

/// Returns the command `run`: arguments, usage, help texts. The contract states that it is the definition `run_command`.
/// `all_descriptions` calls it.
fn run_description() -> &'static Description
    ensures { described result.now ≡ run_command }
{
    &RUN
}

/// Returns the command `picture`: arguments, usage, help texts. The contract states that it is the definition `picture_command`.
/// `all_descriptions` calls it.
fn picture_description() -> &'static Description
    ensures { described result.now ≡ picture_command }
{
    &PICTURE
}

/// Returns the command `bounds`: arguments, usage, help texts. The contract states that it is the definition `bounds_command`.
/// `all_descriptions` calls it.
fn bounds_description() -> &'static Description
    ensures { described result.now ≡ bounds_command }
{
    &BOUNDS
}

/// Returns the command `net`: arguments, usage, help texts. The contract states that it is the definition `net_command`.
/// `all_descriptions` calls it.
fn net_description() -> &'static Description
    ensures { described result.now ≡ net_command }
{
    &NET
}

/// Parses the arguments after the program's name by `clap`, for `parse_request`. Returns the command with its values. The error shows
/// whether `clap` refuses the arguments, prints help, or ran out of memory.
pub fn parse_arguments<'a>(alloc: Global, words: &'a [String]) -> Result<ArgMatches<'a>, Error>
    ensures taken { IfOk result (λ _. fault_of commands (map string_bytes words.entry.now) ≡ []) }
    ensures kinds { FailsBy (fault_of commands (map string_bytes words.entry.now)) result }
    ensures values { IfOk result (λ m. subcommand_rows_of m
        ≡ subcommand_of commands (map string_bytes words.entry.now)) }
    ensures refused { IfErr result (λ e. kind_of e ≢ ErrorKind.OutOfMemory
        → fault_of commands (map string_bytes words.entry.now) ≢ []) }
{
    let command = commands_of(alloc)?;
    command.try_get_matches_from(words)
}

/// Builds the `clap` program with its commands, in the order of the help. The definition `commands` states the result. `parse_arguments`
/// calls it.
fn commands_of<'a>(alloc: Global) -> Result<Command<'a>, AllocError>
    ensures { IfOk result (λ c. app_of c ≡ commands) }
{
    let program = build_bare_program(alloc)?;
    with_commands(alloc, program, &all_descriptions())
}

/// Returns the `clap` program with the commands of `descriptions` added, in order. `commands_of` calls it.
fn with_commands<'a>(
    alloc: Global,
    program: Command<'a>,
    descriptions: &[&Description],
) -> Result<Command<'a>, AllocError>
    ensures { IfOk result (λ c. app_of c
        ≡ fold (λ app d. with_subcommand app (described d.now).top) (app_of program.entry) descriptions.now) }
{
    let mut grown = program;
    for description in descriptions {
        grown = with_command(alloc, grown, description)?;
    }
    Ok(grown)
}

/// Returns the `clap` program with the command of `description` added. `with_commands` calls it.
fn with_command<'a>(
    alloc: Global,
    program: Command<'a>,
    description: &Description,
) -> Result<Command<'a>, AllocError>
    ensures { IfOk result (λ c. app_of c ≡ with_subcommand (app_of program.entry) (described description.now).top) }
{
    match build_command(alloc, description) {
        Ok(command) => program.subcommand(command),
        Err(error) => {
            drop(program);
            Err(error)
        }
    }
}

/// Builds the `clap` program without commands. Its arguments don't begin with its name. `commands_of` calls it.
fn build_bare_program<'a>(alloc: Global) -> Result<Command<'a>, AllocError>
    ensures { IfOk result (λ c. app_of c ≡ program) }
{
    let program = build_command(alloc, &PROGRAM)?;
    program
        .no_binary_name(true)
        .version(VERSION)
        .propagate_version(true)
        .bin_name(PROGRAM.name)
}

/// Builds the `clap` command of a description: name, help texts and arguments. `with_command` and `build_bare_program` call it.
fn build_command<'a>(alloc: Global, description: &Description) -> Result<Command<'a>, AllocError>
    ensures command { IfOk result (λ c. app_of c ≡ described description.now) }
    ensures local { IfOk result (λ c. (fields_of c).has_globals ≡ false) }
{
    let command = Command::new(alloc, description.name)
        .about(description.about)
        .after_help(description.after);
    with_words(alloc, command, description.words)
}

/// Returns the `clap` command with these arguments added, in order. `build_command` calls it.
fn with_words<'a>(
    alloc: Global,
    command: Command<'a>,
    words: &[Argument],
) -> Result<Command<'a>, AllocError>
    ensures command { IfOk result (λ c. app_of c ≡ fold with_word (app_of command.entry) words.now) }
    ensures local { (fields_of command.entry).has_globals ≡ false
        → IfOk result (λ c. (fields_of c).has_globals ≡ false) }
{
    let mut grown = command;
    for word in words {
        grown = grown.arg(clap_arg(alloc, *word))?;
    }
    Ok(grown)
}

/// Builds the `clap` argument for an argument of the table of commands, by its form. `with_words` calls it.
fn clap_arg<'a>(alloc: Global, word: Argument) -> Arg<'a>
    ensures rule { rule_of result ≡ rule_in word.form word.id.now }
    ensures local { result.global ≡ false }
{
    let arg = Arg::new(alloc, word.id).help(word.help);
    match word.form {
        Form::Place => arg.value_name(word.value).required(true),
        Form::Extra => arg.value_name(word.value),
        Form::Choice => arg.value_name(word.value).long(word.id),
        Form::Flag => arg.long(word.id).action(ArgAction::SetTrue),
    }
}
