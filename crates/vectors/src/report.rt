// What the lines of a file were answered.
use crate::asked::Asked;
use std::io;

// Every number that is answered is below this.
const NUMBERS: usize = 32;

#[derive(Clone, Copy)]
pub struct Report {
    // How often each number was answered. An array and no map, which could run out of memory.
    answers: [u64; NUMBERS],
    // How many lines disagree.
    wrong: u64,
    // The row of how many lines has a blank.
    blanks: u64,
}

impl Report {
    pub fn new() -> Report {
        Report {
            answers: [0; NUMBERS],
            wrong: 0,
            blanks: 0,
        }
    }

    // Asks a line, and says whether the library agrees with it.
    pub fn add(&mut self, asked: Asked, line: &[u8]) -> bool {
        if asked.has_blank(line) {
            self.blanks = self.blanks.saturating_add(1);
        }
        let answer = asked.answer(line);
        if let Some(answer) = answer {
            self.count(answer.number);
        }
        let is_right = answer.is_some_and(|answer| answer.is_right);
        if !is_right {
            self.wrong = self.wrong.saturating_add(1);
        }
        is_right
    }

    fn count(&mut self, number: u32) {
        if let Some(count) = self.answers.get_mut(number as usize) {
            *count = count.saturating_add(1);
        }
    }

    pub fn wrong(&self) -> u64 {
        self.wrong
    }

    // Prints the report of a file, and a line for each number that was answered.
    pub fn print(&self, rt: &impl Print, path: &str) -> io::Result<()> {
        // The sum saturates, as the counts do.
        let answers = self
            .answers
            .iter()
            .fold(0u64, |sum, count| sum.saturating_add(*count));
        let wrong = self.wrong;
        let blanks = self.blanks;
        println!(rt;
            "{path}: {answers} answers, {wrong} disagreements, {blanks} rows with a blank"
        )?;
        for (number, count) in self.answers.iter().enumerate() {
            if *count != 0 {
                println!(rt; "  answer {number}: {count}")?;
            }
        }
        Ok(())
    }
}
