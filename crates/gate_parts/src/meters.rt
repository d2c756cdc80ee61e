//! Asks meters for colours and buckets.

use crate::parts::{Part, ask_made};
use crate::words::{
    Fault, Output, first_word, has_word, number_by_name, number_or_max, show, split_first_line,
    tell, u32_or_max,
};
use bridge_meter::{Meter, MeterPlan};

/// Reads a meter `.. cir NUMBER cbs NUMBER eir NUMBER ebs NUMBER`, with its flags by name. A missing number is 0.
pub fn parse_meter_plan(line: &str) -> MeterPlan {
    MeterPlan {
        cir: number_by_name(line, "cir").unwrap_or(0),
        cbs: number_by_name(line, "cbs").unwrap_or(0),
        eir: number_by_name(line, "eir").unwrap_or(0),
        ebs: number_by_name(line, "ebs").unwrap_or(0),
        coupling: has_word(line, "coupling"),
        aware: has_word(line, "aware"),
        drop_yellow: has_word(line, "drop_yellow"),
        mark_all_red: has_word(line, "mark_all_red"),
    }
}

/// Makes a meter, and asks it line by line.
pub fn meter(said: &mut Output, text: &str) {
    let (head, lines) = split_first_line(text);
    ask_made(said, parse_meter(head), head, lines)
}

/// Makes the meter of a line. Refuses a meter beyond its limits.
fn parse_meter(line: &str) -> Result<Meter, Fault> {
    let plan = parse_meter_plan(line);
    if plan.is_within_limits() {
        Ok(Meter::new(plan))
    } else {
        Err(Fault::NotAllowed)
    }
}

impl Part for Meter {
    fn ask(&mut self, said: &mut Output, line: &str) {
        match first_word(line) {
            "frame" => frame(said, self, line),
            "holds" => tell(said, line, &self.state()),
            "clear" => {
                self.clear_red();
                show(said, line)
            }
            _ => show(said, line),
        }
    }
}

/// Adds the colour of a frame: `frame MOMENT OCTETS`. With the word `eligible`, the frame is drop eligible.
fn frame(said: &mut Output, meter: &mut Meter, line: &str) {
    let t = number_or_max(line, 1);
    if t < meter.state().at {
        return tell(said, line, &Fault::NotAllowed);
    }
    let colour = meter.colour(t, u32_or_max(line, 2), has_word(line, "eligible"));
    tell(said, line, &colour)
}
