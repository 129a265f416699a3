//! What `--resume` passes over: an unexpected character, or one after an invalid answer to reset,
//! and what follows it.
ghost use Rattle.std.specs.Prelude.{◌≡◌, None};

use crate::describe::complaint::Complaint;

/// Lines whose characters are passed over.
#[derive(Clone, Copy)]
pub struct Passed {
    /// The line of the first character that is passed over, counted from 1.
    pub line: u64,
    /// Its place in the line, counted from 0.
    pub place: usize,
    /// The last line that is passed over, so far.
    pub last: u64,
}

/// Whether an explanation continues after a protocol error, and what it passes over now.
#[derive(Drop)]
pub struct Resuming {
    /// Whether it continues.
    pub resumes: bool,
    /// The lines that it passes over now.
    pub passed: Option<Passed>,
    /// The first protocol error after which it continued.
    pub first: Option<Complaint>,
    /// The line and place of the first character after an invalid answer to reset, if it passed
    /// over any. Its sender is unknown.
    pub first_unsent: Option<(u64, usize)>,
}

impl Resuming {
    /// Passes over nothing yet.
    pub fn new(resumes: bool) -> Resuming
        ensures resumes { result.resumes ≡ resumes }
        ensures none { result.passed ≡ None }
    {
        Resuming {
            resumes,
            passed: None,
            first: None,
            first_unsent: None,
        }
    }

    /// Passes over the character at this place of a line, and what follows it.
    pub fn pass(&mut self, line: u64, place: usize) {
        let last = line;
        self.passed = Some(Passed { line, place, last });
    }

    /// The same for a character whose sender is unknown. The first becomes `first_unsent`.
    pub fn pass_unsent(&mut self, line: u64, place: usize) {
        self.pass(line, place);
        self.first_unsent = self.first_unsent.or(Some((line, place)));
    }

    /// Ends that, and returns what was passed over; `None` if nothing was.
    pub fn end(&mut self) -> Option<Passed>
        ensures resumes { self.new.resumes ≡ self.old.resumes }
        ensures none { self.new.passed ≡ None }
    {
        self.passed.take()
    }
}
