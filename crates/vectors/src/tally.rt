// What is printed: the cases that differ, and how often each of document 01's numbers was answered.
use crate::list::{Case, Family, Sort, Told};
use crate::trial::Outcome;
use telling::{say, say_field, say_name};

// How the cases of one sort went.
#[derive(Clone, Copy)]
struct Counts {
    // How often each of document 01's numbers was answered.
    answered: [u64; 16],
    all: u64,
    refused: u64,
    differ: u64,
}

// How the cases of a list went.
#[derive(Clone, Copy)]
pub struct Tally {
    sheets: Counts,
    types: Counts,
    imports: Counts,
}

pub fn say_broken(rt: &HostRuntime) {
    say(rt, b"? the list is broken\n");
}

impl Sort {
    fn name(self) -> &'static [u8] {
        match self {
            Sort::Sheet => b" sheets",
            Sort::Item(Family::Types) => b" types",
            Sort::Item(Family::Imports) => b" imports",
        }
    }
}

fn say_told(rt: &HostRuntime, text: &[u8], told: Told) {
    let Told {
        number,
        value,
        also,
    } = told;
    say_field(rt, text, number as u64);
    say(rt, b" ");
    say_name(rt, number);
    say_field(rt, b" ", value as u64);
    if 0 < also {
        say_field(rt, b", also ", also as u64);
    }
}

// A line for a case whose outcome is not right.
pub fn say_difference(rt: &HostRuntime, at: usize, case: Case, outcome: Outcome) {
    if outcome.right {
        return;
    }
    say_field(rt, b"case ", at as u64);
    say(rt, b",");
    say(rt, case.sort.name());
    say_told(rt, b", differs: answered ", outcome.told);
    if outcome.told == case.told {
        say(rt, b", with other bytes\n");
    } else {
        say_told(rt, b"; the list has ", case.told);
        say(rt, b"\n");
    }
}

impl Counts {
    const NONE: Counts = Counts {
        answered: [0; 16],
        all: 0,
        refused: 0,
        differ: 0,
    };

    // One case more.
    fn add(&mut self, outcome: Outcome) {
        let number = outcome.told.number;
        self.all = self.all.saturating_add(1);
        if let Some(count) = self.answered.get_mut(number) {
            *count = count.saturating_add(1);
        }
        if number != 0 {
            self.refused = self.refused.saturating_add(1);
        }
        if !outcome.right {
            self.differ = self.differ.saturating_add(1);
        }
    }

    // How the cases went, if there were any, and a line for each of document 01's numbers.
    fn say(&self, rt: &HostRuntime, sort: Sort) {
        if self.all == 0 {
            return;
        }
        telling::say_number(rt, self.all);
        say(rt, sort.name());
        say_field(rt, b": ", self.answered[0]);
        say_field(rt, b" ok, ", self.refused);
        say_field(rt, b" refused, ", self.differ);
        say(rt, b" differ\n");
        for (number, count) in self.answered.iter().enumerate() {
            telling::say_number(rt, number as u64);
            say(rt, b" ");
            say_name(rt, number);
            say_field(rt, b" ", *count);
            say(rt, b"\n");
        }
    }
}

impl Tally {
    pub const NONE: Tally = Tally {
        sheets: Counts::NONE,
        types: Counts::NONE,
        imports: Counts::NONE,
    };

    pub fn add(&mut self, sort: Sort, outcome: Outcome) {
        match sort {
            Sort::Sheet => self.sheets.add(outcome),
            Sort::Item(Family::Types) => self.types.add(outcome),
            Sort::Item(Family::Imports) => self.imports.add(outcome),
        }
    }

    pub fn say(&self, rt: &HostRuntime) {
        self.sheets.say(rt, Sort::Sheet);
        self.types.say(rt, Sort::Item(Family::Types));
        self.imports.say(rt, Sort::Item(Family::Imports));
    }
}
