#![tactic(auto)]
//! Runs the program tsnbridge: carries out its arguments, prints the output, and ends with the exit status.
ghost use Rattle.std.specs.Prelude.{IfOk, map, string_bytes};
ghost use Rattle.app_networks.specs.Program.{IsPrinted};

use app_cli::read_arguments;
use app_commands::{put_stdout, tell, words_failure};
use app_failure::{NoMemory, print_fault};
use app_networks::{Output, perform};
use std::io::IsTerminal;
use std::process::ExitCode;
use std::rt::{Clock, Files};

fn main(rt: HostRuntime) -> ExitCode {
    let is_watched = rt.stderr().is_terminal();
    match read_arguments(&rt) {
        Ok(words) => tell(&rt, run(&rt, &words, is_watched)),
        Err(fault) => print_fault(&rt, &words_failure(fault)),
    }
}

/// Carries out the arguments, and prints the text for standard output. `main` calls it.
fn run<H: Input + AllocGlobal + Clock + Print + Eprint + Files>(
    rt: &H,
    words: &[String],
    is_watched: bool,
) -> Result<Output, NoMemory>
    ensures { IfOk result (IsPrinted (map string_bytes words.now)) }
{
    match perform(rt, words, is_watched) {
        Ok(output) => put_stdout(rt, words, output),
        Err(fault) => Err(fault),
    }
}
