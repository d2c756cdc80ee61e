//! Reads the line that `net check` prints for a stream.

/// Words of a line. Times are in ns.
#[derive(Clone, Copy, Default)]
pub struct Line {
    pub arrives: bool,
    pub is_refusable: bool,
    pub worst: Option<u64>,
    pub best: Option<u64>,
    pub bound: Option<u64>,
    pub from: Option<u64>,
    pub to: Option<u64>,
    pub deadline: Option<u64>,
    pub is_met: bool,
    pub margin: Option<u64>,
    pub lacks: Option<u64>,
}

impl Line {
    /// Whether the line promises that each frame passes.
    pub fn passes(&self) -> bool {
        self.arrives
    }

    /// Whether the words agree: `arrives` stands exactly beside `worst` without `refusable`, and `margin` or `lacks` is the distance from the
    /// deadline.
    pub fn is_consistent(&self) -> bool {
        self.arrives == (self.worst.is_some() && !self.is_refusable) && self.has_distance()
    }

    /// Whether `margin` or `lacks` is the distance from the greatest delay to the deadline. A line without deadline has neither.
    fn has_distance(&self) -> bool {
        let (Some(deadline), Some(greatest)) = (self.deadline, self.greatest()) else {
            return self.margin.is_none() && self.lacks.is_none();
        };
        if self.is_met {
            self.margin.is_some() && self.margin == deadline.checked_sub(greatest)
        } else {
            self.lacks.is_some() && self.lacks == greatest.checked_sub(deadline)
        }
    }

    /// Returns the greatest delay in ns that the line allows.
    pub fn greatest(&self) -> Option<u64> {
        self.worst.or(self.bound)
    }

    /// Whether the line allows a delay: from the best to the greatest, and at most a deadline that is met.
    pub fn allows(&self, delay: u64) -> bool {
        let is_soon = match self.greatest() {
            Some(greatest) => delay <= greatest,
            None => false,
        };
        let is_late = match self.best {
            Some(best) => best <= delay,
            None => true,
        };
        let is_met = match self.deadline {
            Some(deadline) => !self.is_met || delay <= deadline,
            None => true,
        };
        is_soon && is_late && is_met
    }
}

/// Returns the number that `word` contains.
fn parse_number(word: &str) -> Option<u64> {
    word.parse::<u64>().ok()
}

/// Adds a word to the line. If it is a number, the word `before` gives the meaning.
fn add_word(line: &mut Line, before: &str, word: &str) {
    match before {
        "worst" => line.worst = parse_number(word),
        "best" => line.best = parse_number(word),
        "bound" => line.bound = parse_number(word),
        "deadline" => line.deadline = parse_number(word),
        "margin" => line.margin = parse_number(word),
        "lacks" => line.lacks = parse_number(word),
        "phases" => {
            if let Some((from, to)) = word.split_once("..") {
                line.from = parse_number(from);
                line.to = parse_number(to);
            }
        }
        _ => {}
    }
    match word {
        "arrives" => line.arrives = true,
        "refusable" => line.is_refusable = true,
        "met" => line.is_met = true,
        _ => {}
    }
}

/// Reads a line.
pub fn parse_line(text: &str) -> Line {
    let mut line = Line::default();
    let mut before = "";
    for word in text.split(' ') {
        add_word(&mut line, before, word);
        before = word;
    }
    line
}
