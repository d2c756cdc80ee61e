//! Asks cyclic lists and changing lists for intervals, open times and fits.
ghost use Rattle.std.specs.Prelude.{◌<◌, ◌≤◌, IfSome};

use crate::parts::{Part, ask_made, push_each};
use crate::words::{
    Fault, Output, first_word, has_word, number_by_name, number_or_max, parse_number, show,
    split_first_line, tell,
};
use bridge_cycle::{
    CyclicList, END_OF_SEARCHES, END_OF_TURNS, Egress, Joined, LONGEST_CYCLE, ListFault, Run,
    Timeline, first_fit, longest_run,
};
use bridge_limits::END_OF_TIME;
use std::alloc::{AllocError, Allocator, Global};

/// Reads an entry `STATE:INTERVAL`.
fn parse_list_entry(word: &str) -> Option<(u8, u64)> {
    let (state, interval) = word.split_once(':')?;
    Some((parse_number(state)?, parse_number(interval)?))
}

/// Reads the entries of a text, and repeats them by the number after `times`.
fn parse_list_entries<A: Allocator>(alloc: A, text: &str) -> Result<Vec<(u8, u64), A>, AllocError> {
    let times: usize = number_by_name(text, "times").unwrap_or(1);
    let words = text.split(' ').count();
    let mut entries = Vec::with_capacity(alloc, words.saturating_mul(times))?;
    match push_times(&mut entries, text, times) {
        Ok(()) => Ok(entries),
        Err(_) => Err(AllocError),
    }
}

/// Adds the entries of a text `times` times.
fn push_times<A: Allocator>(
    entries: &mut Vec<(u8, u64), A>,
    text: &str,
    times: usize,
) -> Result<(), AllocError> {
    for _ in 0..times {
        push_each(entries, text, ' ', parse_list_entry)?;
    }
    Ok(())
}

/// Reads a list `base NUMBER cycle NUMBER STATE:INTERVAL ..`.
fn parse_list<A: Allocator + Copy>(alloc: A, text: &str) -> Result<CyclicList<u8, A>, Fault> {
    let base = number_by_name(text, "base").unwrap_or(0);
    let cycle = number_by_name(text, "cycle").unwrap_or(0);
    if base >= END_OF_TIME {
        return Err(Fault::NotAllowed);
    }
    match parse_list_entries(alloc, text) {
        Ok(entries) => list_or_fault(CyclicList::new(alloc, base, cycle, entries)),
        Err(_) => Err(Fault::NoMemory),
    }
}

/// Returns the list or its fault.
fn list_or_fault<A: Allocator + Copy>(
    made: Result<CyclicList<u8, A>, ListFault>,
) -> Result<CyclicList<u8, A>, Fault> {
    match made {
        Ok(list) => Ok(list),
        Err(fault) => Err(Fault::from(fault)),
    }
}

/// Reads two lists `LIST then LIST at NUMBER`, with a schedule change at `NUMBER`.
fn parse_changing_list<A: Allocator + Copy>(
    alloc: A,
    before: &str,
    after: &str,
) -> Result<Egress<A>, Fault> {
    let at = number_by_name(after, "at").unwrap_or(END_OF_TIME);
    if at >= END_OF_TIME {
        return Err(Fault::NotAllowed);
    }
    match parse_list(alloc, before) {
        Ok(old) => make_changing_list(old, parse_list(alloc, after), at),
        Err(fault) => Err(fault),
    }
}

/// Returns the list that changes from `old` to `new` at time `at`, if `new` was made.
fn make_changing_list<A: Allocator + Copy>(
    old: CyclicList<u8, A>,
    new: Result<CyclicList<u8, A>, Fault>,
    at: u64,
) -> Result<Egress<A>, Fault>
    requires { at < END_OF_TIME }
{
    match new {
        Ok(new) => Ok(Egress::Joined(Joined::new(old, new, at))),
        Err(fault) => {
            drop(old);
            Err(fault)
        }
    }
}

/// Reads the lists of a text: one, or two with `then` between them. With the word `copied`, returns a copy.
pub fn parse_lists<A: Allocator + Copy>(alloc: A, text: &str) -> Result<Egress<A>, Fault> {
    let made = match text.split_once(" then ") {
        Some((before, after)) => parse_changing_list(alloc, before, after),
        None => single_list(parse_list(alloc, text)),
    };
    if has_word(text, "copied") {
        copy_if_made(alloc, made)
    } else {
        made
    }
}

/// Returns a list without schedule change.
fn single_list<A: Allocator + Copy>(
    made: Result<CyclicList<u8, A>, Fault>,
) -> Result<Egress<A>, Fault> {
    match made {
        Ok(list) => Ok(Egress::Cyclic(list)),
        Err(fault) => Err(fault),
    }
}

/// Returns the copy of lists, if they were made.
fn copy_if_made<A: Allocator + Copy>(
    alloc: A,
    made: Result<Egress<A>, Fault>,
) -> Result<Egress<A>, Fault> {
    match made {
        Ok(lists) => copy_lists(alloc, lists),
        Err(fault) => Err(fault),
    }
}

fn copy_lists<A: Allocator + Copy>(alloc: A, lists: Egress<A>) -> Result<Egress<A>, Fault> {
    let copied = lists.copy(alloc);
    drop(lists);
    match copied {
        Ok(copied) => Ok(copied),
        Err(_) => Err(Fault::NoMemory),
    }
}

/// Makes lists, and asks them line by line.
pub fn lists(said: &mut Output, text: &str) {
    let (head, lines) = split_first_line(text);
    ask_made(said, parse_lists(said.alloc, head), head, lines)
}

impl Part for Egress<Global> {
    fn ask(&mut self, said: &mut Output, line: &str) {
        match first_word(line) {
            "turn" => turn(said, self, line),
            "cycle" => tell(said, line, &self.cycle()),
            "fit" => fit(said, self, line),
            _ => ask_one(said, self, line),
        }
    }
}

/// Adds the interval at a time: state, start and end.
fn turn(said: &mut Output, lists: &Egress<Global>, line: &str) {
    let t = number_or_max(line, 1);
    if t >= END_OF_TURNS {
        return tell(said, line, &Fault::NotAllowed);
    }
    let turn = lists.turn(t);
    tell(said, line, &(turn.state, turn.start, turn.end))
}

/// Adds the answer of one list, or of two lists with a schedule change.
fn ask_one(said: &mut Output, lists: &Egress<Global>, line: &str) {
    match lists {
        Egress::Cyclic(list) => ask_list(said, list, line),
        Egress::Joined(joined) => ask_joined(said, joined, line),
    }
}

fn ask_list(said: &mut Output, list: &CyclicList<u8, Global>, line: &str) {
    match first_word(line) {
        "entries" => tell(said, line, &list.entries()),
        "base" => tell(said, line, &list.base()),
        "run" => run(said, list, line),
        _ => show(said, line),
    }
}

/// Adds the longest time for which a class is open.
fn run(said: &mut Output, list: &CyclicList<u8, Global>, line: &str) {
    let class = number_or_max(line, 1);
    if class >= 8 {
        return tell(said, line, &Fault::NotAllowed);
    }
    tell(said, line, &longest_run(list, class as u8))
}

fn ask_joined(said: &mut Output, joined: &Joined<u8, Global>, line: &str) {
    let (before, after) = joined.lists();
    match first_word(line) {
        "at" => tell(said, line, &joined.change_time()),
        "cycles" => tell(said, line, &(before.cycle(), after.cycle())),
        _ => show(said, line),
    }
}

/// Class, transmission time and earliest start for which a fit is searched. Times are in ns.
#[derive(Clone, Copy)]
struct FitQuestion {
    class: u8,
    occupied: u64,
    from: u64,
}

/// Reads a line `fit CLASS OCCUPIED FROM`.
fn parse_fit_question(line: &str) -> Option<FitQuestion>
    ensures class { IfSome result (λ a. a.class < 8) }
    ensures occupied { IfSome result (λ a. a.occupied ≤ LONGEST_CYCLE) }
    ensures from { IfSome result (λ a. a.from < END_OF_SEARCHES) }
{
    let (class, occupied, from) = (
        number_or_max(line, 1),
        number_or_max(line, 2),
        number_or_max(line, 3),
    );
    if class < 8 && occupied <= LONGEST_CYCLE && from < END_OF_SEARCHES {
        Some(FitQuestion {
            class: class as u8,
            occupied,
            from,
        })
    } else {
        None
    }
}

/// Adds the first fit of a class, or `None` if a list never opens the class long enough, or a single list always opens it.
fn fit(said: &mut Output, lists: &Egress<Global>, line: &str) {
    let Some(asked) = parse_fit_question(line) else {
        return tell(said, line, &Fault::NotAllowed);
    };
    match lists {
        Egress::Cyclic(list) => tell(said, line, &list_fit(list, asked)),
        Egress::Joined(joined) => tell(said, line, &changing_list_fit(joined, asked)),
    }
}

fn list_fit(list: &CyclicList<u8, Global>, asked: FitQuestion) -> Option<u64>
    requires class { asked.class < 8 }
    requires occupied { asked.occupied ≤ LONGEST_CYCLE }
    requires from { asked.from < END_OF_SEARCHES }
{
    let Run::For(most) = longest_run(list, asked.class) else {
        return None;
    };
    if asked.occupied > most {
        return None;
    }
    Some(first_fit(list, asked.class, asked.occupied, asked.from))
}

fn changing_list_fit(joined: &Joined<u8, Global>, asked: FitQuestion) -> Option<u64>
    requires class { asked.class < 8 }
    requires occupied { asked.occupied ≤ LONGEST_CYCLE }
    requires from { asked.from < END_OF_SEARCHES }
{
    let (old, new) = joined.lists();
    let before = longest_run(old, asked.class);
    let after = longest_run(new, asked.class);
    if !before.allows(asked.occupied) {
        return None;
    }
    if !after.allows(asked.occupied) {
        return None;
    }
    Some(first_fit(joined, asked.class, asked.occupied, asked.from))
}
