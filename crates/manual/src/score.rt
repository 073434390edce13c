// How the script goes: its paragraphs, and the checks that they passed.

// How the paragraph under way goes.
#[derive(Clone, Copy)]
pub enum Course {
    Well,
    // No line has looked yet at an answer of so many bytes.
    Unseen(usize),
    // A line has failed.
    Failed,
}

#[derive(Clone, Copy)]
pub struct Score {
    pub course: Course,
    // The checks that the paragraph has passed.
    pub checks: u64,
    // Of the whole script.
    pub paragraphs: u64,
    pub passed: u64,
    pub failures: u64,
}

impl Score {
    // Before the first paragraph.
    pub fn new() -> Score {
        Score {
            course: Course::Well,
            checks: 0,
            paragraphs: 0,
            passed: 0,
            failures: 0,
        }
    }

    pub fn begin_paragraph(&mut self) {
        self.course = Course::Well;
        self.checks = 0;
        self.paragraphs = self.paragraphs.wrapping_add(1);
    }

    pub fn pass_check(&mut self) {
        self.course = Course::Well;
        self.checks = self.checks.wrapping_add(1);
    }

    pub fn count_failure(&mut self) {
        self.failures = self.failures.wrapping_add(1);
    }

    pub fn count_checks(&mut self) {
        self.passed = self.passed.wrapping_add(self.checks);
    }
}
