// A row: files, calls over them, and what these should answer and put.
use crate::answer::{Answer, Files, Plan, call};
use crate::bounds::{counts_of, with_steps};
use crate::bytes::{push_line, push_number, push_text};
use crate::compare::{difference, end, front, number_difference};
use crate::machine::run_on;
use shapes_core::NoMemory;
use std::alloc::Global;
use std::collections::BTreeMap;
use std::mem;

/// What the lines of a section are.
#[derive(Clone, Copy)]
enum Section {
    Nothing,
    File,
    Out,
    Begins,
    Ends,
    Err,
}

/// A row that is being read, each call of which is made as soon as it is read.
#[derive(Drop)]
pub struct Row {
    alloc: Global,
    files: Files,
    plan: Plan,
    section: Section,
    /// The name of the file whose lines are read.
    name: String,
    lines: Vec<u8>,
    calls: u64,
    last: Answer,
    is_out_said: bool,
    is_err_said: bool,
    /// What differed first.
    differs: Option<Vec<u8>>,
}

/// The first word of a line, and the rest.
fn first_word(line: &str) -> (&str, &str) {
    match line.split_once(" ") {
        Some((first, rest)) => (first, rest),
        None => (line, ""),
    }
}

/// The number that a word spells, and the greatest for what spells none.
fn number(word: &str) -> u64 {
    word.parse::<u64>().unwrap_or(u64::MAX)
}

impl Row {
    pub fn new(alloc: Global) -> Row {
        Row {
            alloc,
            files: BTreeMap::new(alloc),
            plan: Plan::sound(),
            section: Section::Nothing,
            name: String::new(alloc),
            lines: Vec::new(alloc),
            calls: 0,
            last: Answer::nothing(alloc),
            is_out_said: true,
            is_err_said: true,
            differs: None,
        }
    }

    /// Takes a line of a section.
    pub fn take_line(&mut self, line: &str) -> Result<(), NoMemory> {
        push_line(&mut self.lines, line)
    }

    /// Takes an order, with which a section ends.
    pub fn take_order(&mut self, order: &str) -> Result<(), NoMemory> {
        self.end_section()?;
        let (first, rest) = first_word(order);
        match first {
            "file" => self.begin_file(rest),
            "call" => self.make_call(rest),
            "same" => self.repeat_call(rest),
            "machine" => self.run_text(rest),
            _ => self.take_order_on_answer(first, rest),
        }
    }

    fn take_order_on_answer(&mut self, first: &str, rest: &str) -> Result<(), NoMemory> {
        match first {
            "out" => self.begin_out(Section::Out),
            "begins" => self.begin_out(Section::Begins),
            "ends" => self.begin_out(Section::Ends),
            "err" => self.begin_err(),
            "bytes" => self.look_at_length(rest),
            _ => self.take_order_on_text(first, rest),
        }
    }

    fn take_order_on_text(&mut self, first: &str, rest: &str) -> Result<(), NoMemory> {
        match first {
            "keep" => self.keep_out(rest),
            "most" => self.look_at_counts(rest),
            "no" => self.look_for_multiplication(),
            "steps" => self.set_steps(rest),
            _ => self.take_plan(first, rest),
        }
    }

    fn take_plan(&mut self, first: &str, rest: &str) -> Result<(), NoMemory> {
        match first {
            "fail" => self.plan_failure(rest),
            "room" => self.plan_room(rest),
            _ => return self.note_text(b"there is no such order"),
        }
        Ok(())
    }

    /// Ends the row, and says what differed first.
    pub fn end(&mut self) -> Result<Option<&[u8]>, NoMemory> {
        self.end_section()?;
        self.end_call()?;
        if self.calls == 0 {
            self.note_text(b"no call is made")?;
        }
        match &self.differs {
            Some(said) => Ok(Some(said.as_slice())),
            None => Ok(None),
        }
    }

    /// Keeps what differed, if it is the first.
    fn note(&mut self, found: Option<Vec<u8>>) -> Result<(), NoMemory> {
        match found {
            Some(said) => self.note_text(&said),
            None => Ok(()),
        }
    }

    fn note_text(&mut self, text: &[u8]) -> Result<(), NoMemory> {
        if self.differs.is_some() {
            return Ok(());
        }
        let mut said = Vec::from_slice(self.alloc, b"call ")?;
        push_number(&mut said, self.calls)?;
        said.extend_from_slice(b": ")?;
        said.extend_from_slice(text)?;
        self.differs = Some(said);
        Ok(())
    }

    /// Compares what the last call put with the section that ends, or keeps it as a file.
    fn end_section(&mut self) -> Result<(), NoMemory> {
        let lines = mem::replace(&mut self.lines, Vec::new(self.alloc));
        let out = self.last.out.as_slice();
        let found = match self.section {
            Section::Nothing => difference(self.alloc, "lines of nothing", b"", &lines)?,
            Section::File => return self.end_file(lines),
            Section::Out => difference(self.alloc, "out", &lines, out)?,
            Section::Begins => difference(self.alloc, "begin of out", &lines, front(out, &lines))?,
            Section::Ends => difference(self.alloc, "end of out", &lines, end(out, &lines))?,
            Section::Err => difference(self.alloc, "err", &lines, &self.last.err)?,
        };
        self.section = Section::Nothing;
        self.note(found)
    }

    fn end_file(&mut self, lines: Vec<u8>) -> Result<(), NoMemory> {
        self.section = Section::Nothing;
        let name = mem::replace(&mut self.name, String::new(self.alloc));
        self.files.insert(name, lines)?;
        Ok(())
    }

    /// What the row did not say of the last call must be empty.
    fn end_call(&mut self) -> Result<(), NoMemory> {
        if !self.is_out_said {
            let found = difference(self.alloc, "out", b"", &self.last.out)?;
            self.note(found)?;
        }
        if !self.is_err_said {
            let found = difference(self.alloc, "err", b"", &self.last.err)?;
            self.note(found)?;
        }
        self.is_out_said = true;
        self.is_err_said = true;
        Ok(())
    }

    fn begin_file(&mut self, name: &str) -> Result<(), NoMemory> {
        let mut spelled = Vec::new(self.alloc);
        push_text(&mut spelled, name)?;
        self.name = String::from_str(self.alloc, str::from_utf8(&spelled).unwrap_or(name))?;
        self.section = Section::File;
        Ok(())
    }

    fn begin_out(&mut self, section: Section) -> Result<(), NoMemory> {
        self.is_out_said = true;
        self.section = section;
        Ok(())
    }

    fn begin_err(&mut self) -> Result<(), NoMemory> {
        self.is_err_said = true;
        self.section = Section::Err;
        Ok(())
    }

    /// The words that a text stands for, called as the program.
    fn answer_to(&mut self, words: &str) -> Result<Answer, NoMemory> {
        let mut spelled = Vec::new(self.alloc);
        push_text(&mut spelled, words)?;
        let line = str::from_utf8(&spelled).unwrap_or(words);
        let answer = call(self.alloc, &self.files, self.plan, line)?;
        self.plan = Plan::sound();
        Ok(answer)
    }

    /// Makes a call, and compares its status.
    fn make_call(&mut self, rest: &str) -> Result<(), NoMemory> {
        self.end_call()?;
        self.calls = self.calls.saturating_add(1);
        let (status, words) = first_word(rest);
        let answer = self.answer_to(words)?;
        let came = answer.status as u64;
        let found = number_difference(self.alloc, "status", number(status), came)?;
        self.last = answer;
        self.is_out_said = false;
        self.is_err_said = false;
        self.note(found)
    }

    /// Makes a call that answers and puts the same as the last one.
    fn repeat_call(&mut self, words: &str) -> Result<(), NoMemory> {
        self.end_call()?;
        self.calls = self.calls.saturating_add(1);
        let answer = self.answer_to(words)?;
        let last = mem::replace(&mut self.last, answer);
        let came = self.last.status as u64;
        let status = number_difference(self.alloc, "status", last.status as u64, came)?;
        self.note(status)?;
        let out = difference(self.alloc, "out", &last.out, &self.last.out)?;
        self.note(out)?;
        let err = difference(self.alloc, "err", &last.err, &self.last.err)?;
        self.note(err)
    }

    /// Runs a text in the machine, with a seed. What came of it counts as put to out.
    fn run_text(&mut self, rest: &str) -> Result<(), NoMemory> {
        self.end_call()?;
        self.calls = self.calls.saturating_add(1);
        let (seed, names) = first_word(rest);
        let (text, arrays) = first_word(names);
        let (Some(text), Some(arrays)) = (self.files.get(text), self.files.get(arrays)) else {
            return self.note_text(b"a file is missing");
        };
        let out = run_on(self.alloc, number(seed), text, arrays)?;
        self.last = Answer {
            status: 0,
            out,
            err: Vec::new(self.alloc),
        };
        self.is_out_said = false;
        Ok(())
    }

    /// Keeps what was put to out as a file.
    fn keep_out(&mut self, name: &str) -> Result<(), NoMemory> {
        self.is_out_said = true;
        let name = String::from_str(self.alloc, name)?;
        let bytes = Vec::from_slice(self.alloc, &self.last.out)?;
        self.files.insert(name, bytes)?;
        Ok(())
    }

    /// Sets the number of the steps that a file says.
    fn set_steps(&mut self, rest: &str) -> Result<(), NoMemory> {
        let (steps, name) = first_word(rest);
        let Some(text) = self.files.get(name) else {
            return self.note_text(b"a file is missing");
        };
        let changed = with_steps(self.alloc, text, steps)?;
        let name = String::from_str(self.alloc, name)?;
        self.files.insert(name, changed)?;
        Ok(())
    }

    fn look_at_length(&mut self, length: &str) -> Result<(), NoMemory> {
        self.is_out_said = true;
        let came = self.last.out.len() as u64;
        let found = number_difference(self.alloc, "bytes of out", number(length), came)?;
        self.note(found)
    }

    fn look_for_multiplication(&mut self) -> Result<(), NoMemory> {
        let came = counts_of(&self.last.out).multiplying;
        let found = number_difference(self.alloc, "lines of the M extension", 0, came)?;
        self.note(found)
    }

    /// Compares the instructions, the spill words and the steps of a text with the most that they may be.
    fn look_at_counts(&mut self, rest: &str) -> Result<(), NoMemory> {
        let counts = counts_of(&self.last.out);
        let (instructions, others) = first_word(rest);
        let (spill, steps) = first_word(others);
        self.look_at_most("instructions", instructions, counts.instructions)?;
        self.look_at_most("spill words", spill, counts.spill)?;
        self.look_at_most("steps", steps, counts.steps)
    }

    fn look_at_most(&mut self, what: &str, most: &str, came: u64) -> Result<(), NoMemory> {
        let found = number_difference(self.alloc, what, number(most).min(came), came)?;
        self.note(found)
    }

    fn plan_failure(&mut self, rest: &str) {
        let (what, turn) = first_word(rest);
        match what {
            "take" => self.plan.take = number(turn),
            "out" => self.plan.out = number(turn),
            _ => self.plan.err = number(turn),
        }
    }

    fn plan_room(&mut self, rest: &str) {
        let (out, others) = first_word(rest);
        let (err, piece) = first_word(others);
        self.plan.out_room = number(out);
        self.plan.err_room = number(err);
        self.plan.piece = number(piece);
    }
}
