//! A kind of tier whose choice of what leaves moves on with every call.
ghost use Rattle.std.specs.Prelude.{◌≡◌};
ghost use Rattle.device.specs.Device.{Always};
ghost use Rattle.examples.specs.MovesOn.{MovesOn};
ghost use Rattle.examples.specs.FreeRunning.{Apart, shows, instead, look, takes_second, moved_on, free_running, cleared};
ghost use Rattle.tier.specs.Meaning.{held_answer};

use parts::line::Line;
use parts::refusal::Refusal;
use tier::Tier;

/// A tier of one level with two lines, any block in either. A put takes a free line, and in a full tier the line whose turn it is.
/// The turn passes with every call that may alter something, also with one that is refused or finds nothing.
#[derive(Drop)]
pub struct FreeRunning {
    first: Option<Line>,
    second: Option<Line>,
    // Whether it is the second line's turn to leave, and not the first's.
    second_leaves: bool,
    ghost apart: { Apart first second },
}

// What a line shows of the block.
fn shown(line: Option<Line>, block: u16) -> Option<(u32, u32, u32)>
    ensures { result ≡ shows line block }
{
    line.filter(|line| line.block == block).map(Line::shown)
}

// The line, or another in its place where it has the block.
fn instead(line: Option<Line>, block: u16, other: Option<Line>) -> Option<Line>
    ensures { result ≡ instead line block other }
{
    if shown(line, block).is_some() {
        other
    } else {
        line
    }
}

impl FreeRunning {
    ghost use Rattle.examples.specs.FreeRunningMeaning.{free_of, lines_of};

    /// Two free lines.
    pub fn new() -> FreeRunning
        ensures made { free_of result ≡ free_running cleared }
        ensures law { Always MovesOn (free_of result) }
    {
        FreeRunning::idle()
    }

    // The code apart from the law of whole runs, so that an edit of it is refused for its own sake.
    fn idle() -> FreeRunning
        ensures { free_of result ≡ free_running cleared }
    {
        FreeRunning {
            first: None,
            second: None,
            second_leaves: false,
        }
    }

    // Whether a put goes into the second line.
    fn takes_second(&self) -> bool
        ensures { result ≡ takes_second (lines_of self.now) }
    {
        self.first.is_some() && (self.second.is_none() || self.second_leaves)
    }

    // Passes the turn on.
    fn move_on(&mut self)
        ensures { lines_of self.new ≡ moved_on (lines_of self.old) }
    {
        self.second_leaves = !self.second_leaves;
    }

    // What a call answers that only a held block allows.
    fn asked(&self, block: u16) -> Result<(), Refusal>
        ensures { result ≡ held_answer (free_of self.now) block }
    {
        match self.look(block) {
            Some(_) => Ok(()),
            None => Err(Refusal::NotHeld),
        }
    }
}

impl Tier for FreeRunning {
    ghost use Rattle.examples.specs.FreeRunningMeaning.{free_of};
    ghost use Rattle.examples.specs.FreeRunningLaws.{free_of-lawful};

    ghost meaning = { free_of };

    ghost lawful = { free_of-lawful };

    fn depth(&self) -> u32 {
        1
    }

    fn look(&self, block: u16) -> Option<(u32, u32, u32)> {
        shown(self.first, block).or(shown(self.second, block))
    }

    fn put(&mut self, line: Line) -> Result<Option<Line>, Refusal> {
        let answer = if self.look(line.block).is_some() {
            Err(Refusal::AlreadyHeld)
        } else if self.takes_second() {
            Ok(self.second.replace(line))
        } else {
            Ok(self.first.replace(line))
        };
        self.move_on();
        answer
    }

    fn take(&mut self, block: u16) -> Option<(u32, u32, u32)> {
        let shown = self.look(block);
        self.first = instead(self.first, block, None);
        self.second = instead(self.second, block, None);
        self.move_on();
        shown
    }

    fn change(&mut self, line: Line) -> Result<(), Refusal> {
        let answer = self.asked(line.block);
        self.first = instead(self.first, line.block, Some(line));
        self.second = instead(self.second, line.block, Some(line));
        self.move_on();
        answer
    }

    fn touch(&mut self, block: u16) -> Result<(), Refusal> {
        self.move_on();
        self.asked(block)
    }

    fn clear(&mut self) {
        self.first = None;
        self.second = None;
        self.move_on();
    }
}
