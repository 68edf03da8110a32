ghost use Rattle.std.specs.Prelude.{◌≡◌, ◌++◌, ◌∷◌, [], Ok, OnOk, IfOk, fold, length};
ghost use Rattle.lending.specs.Full.{IsFull};
ghost use Rattle.replaying.specs.Performed.{run_answers, run_end, HoldsItsString};
ghost use Rattle.replaying.specs.Lines.{reply_to, lines_of, sealed_after as after, front};
ghost use Rattle.std.specs.Option.{option_copied};

use crate::reply::Reply;
use crate::said::{FULLY_LENT, ProposedWay, Said};
use crate::uncalled::Uncalled;
use lending::{LONGEST_STRING, WorkLists, filled};
use mixed_ways::kept::KeptList;
use mixed_ways::mixed::Mixed;
use names::kind::Kind;
use pressing::press::Pressing;
use runs::answer::{Answer, Outcome};
use scripts::replaying::replay;
use scripts::script::{Call, Lent, Step};
use std::alloc::{AllocError, Global};
use typing::typed::Typed;
use ways::stride::StrideWay;
use ways::way::Way;

/// A line that is answered: by the next call, or with why it makes none.
pub type Line = Result<(), Uncalled>;

/// What a line is answered; the answer is that of its call.
pub fn reply(line: Line, answer: Answer) -> Reply
    ensures { result ≡ reply_to line answer }
{
    line.map(|()| answer)
}

/// A session that was read: the script of its calls, and the lines that are answered.
#[derive(Drop)]
pub struct Session<N> {
    script: Vec<Step<N, ProposedWay>>,
    pub lines: Vec<Line>,
    lent: Lent,
}

/// What the calls of a session are answered, one after another, and the memory for the string.
#[derive(Drop)]
pub struct Replayed {
    pub answers: Vec<Answer>,
    pub string: Vec<u8>,
}

// Performs a script from the beginning, over full lists.
fn perform<N: Kind, W: Way>(
    script: &[Step<N, W>],
    lists: &mut WorkLists<N>,
    string: &mut [u8],
    answers: &mut [Answer],
)
    requires full { IsFull lists.old }
    requires room { length answers.old ≡ length script.now }
    ensures told { answers.new ≡ run_answers N.spelling W.meaning (length string.old) script.now }
    ensures sealed { HoldsItsString N.spelling N.number (run_end N.spelling W.meaning (length string.old) script.now) string.new }
{
    let mut pressing = Pressing::new();
    replay(script, &mut pressing, lists.lend(), string, answers).unwrap();
}

impl<N: Typed> Session<N> {
    /// A session without lines.
    pub fn new(heap: Global) -> Session<N>
        ensures { result.lines.items ≡ [] }
    {
        Session {
            script: Vec::new(heap),
            lines: Vec::new(heap),
            lent: FULLY_LENT,
        }
    }

    // Adds a call, with what it is lent.
    fn add_call(&mut self, call: Call<N, ProposedWay>) -> Result<(), AllocError>
        ensures { OnOk result (self.new.lines.items ≡ self.old.lines.items ++ (Ok tt ∷ [])) }
    {
        self.script.push(Step {
            call,
            lent: self.lent,
        })?;
        self.lines.push(Ok(()))?;
        Ok(())
    }

    /// Adds what a line says.
    pub fn add(&mut self, said: Result<Said<N>, Uncalled>) -> Result<(), AllocError>
        ensures { OnOk result (self.new.lines.items ≡ self.old.lines.items ++ lines_of said) }
    {
        match said {
            Ok(Said::Blank) => {}
            Ok(Said::Lend(lent)) => self.lent = lent,
            Ok(Said::Call(call)) => self.add_call(call)?,
            Err(reason) => self.lines.push(Err(reason))?,
        }
        Ok(())
    }

    /// Makes the calls on a pressing without names. Its memory is full, of arbitrary contents, and
    /// each of its rows has this name.
    pub fn replayed(&self, heap: Global, name: N) -> Result<Replayed, AllocError>
        ensures told { IfOk result (λ r. r.answers.items ≡ run_answers N.spelling ⟦<Mixed<StrideWay, KeptList> as Way>⟧.meaning 26645 self.now.script.items) }
        ensures sealed { IfOk result (λ r. HoldsItsString N.spelling N.number (run_end N.spelling ⟦<Mixed<StrideWay, KeptList> as Way>⟧.meaning 26645 self.now.script.items) r.string.items) }
    {
        let mut lists = WorkLists::new(heap, name)?;
        let mut answers = filled(heap, Ok(Outcome::Reopened), self.script.len())?;
        let mut string = filled(heap, 0xA5, LONGEST_STRING)?;
        perform(&self.script, &mut lists, &mut string, &mut answers);
        Ok(Replayed { answers, string })
    }
}

// The length of the string that the last seal wrote, after one more answer.
fn sealed_after(sealed: Option<usize>, answer: Answer) -> Option<usize>
    ensures { result ≡ after sealed answer }
{
    match answer {
        Ok(Outcome::Sealed(len)) => Some(len),
        _ => sealed,
    }
}

impl Replayed {
    /// The plate string, once it is sealed.
    pub fn plate(&self) -> Option<&[u8]>
        ensures { option_copied result ≡ front (fold after None self.now.answers.items) self.now.string.items }
    {
        let len = self
            .answers
            .iter()
            .fold(None, |sealed, answer| sealed_after(sealed, *answer))?;
        self.string.get(0..len)
    }
}
