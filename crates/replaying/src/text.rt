use crate::reply::say;
use crate::said::read_line;
use crate::session::{Line, Replayed, Session, reply};
use crate::uncalled::Uncalled;
use names::cell::DayCell;
use names::point::PointName;
use runs::answer::{Answer, Outcome};
use std::alloc::{AllocError, Global};
use std::str::Lines;
use typing::kinds::NameKind;
use typing::numbers::number;
use typing::text::append;
use typing::typed::Typed;

// Reads the lines of a session.
fn read_session<N: Typed>(heap: Global, lines: Lines<'_>) -> Result<Session<N>, AllocError> {
    let mut session = Session::new(heap);
    for line in lines {
        session.add(read_line(heap, line)?)?;
    }
    Ok(session)
}

// What the lines are answered: each call has the next answer.
fn replies(lines: &[Line], answers: &[Answer], out: &mut String) -> Result<(), AllocError> {
    let mut answers = answers.iter().copied();
    for line in lines {
        let answer = line.ok().and_then(|()| answers.next());
        say(reply(*line, answer.unwrap_or(Ok(Outcome::Reopened))), out)?;
    }
    Ok(())
}

// The line with the plate string, if there is one.
fn sealed(heap: Global, replayed: &Replayed) -> Result<String, AllocError> {
    match replayed.plate() {
        Some(plate) => {
            let hex = hex::encode(heap, plate)?;
            format!(in heap; "string {hex}\n")
        }
        None => Ok(String::new(heap)),
    }
}

// Replays the lines of a session over memory whose rows hold this name.
fn replay_with<N: Typed>(heap: Global, name: N, lines: Lines<'_>) -> Result<String, AllocError> {
    let session = read_session(heap, lines)?;
    let replayed = session.replayed(heap, name)?;
    let mut out = String::new(heap);
    replies(&session.lines, &replayed.answers, &mut out)?;
    append(&mut out, sealed(heap, &replayed))?;
    Ok(out)
}

// The kind of the line `kind K`.
fn read_kind(line: &str) -> Option<NameKind> {
    let mut words = line.split_whitespace();
    let (Some("kind"), Some(kind), None) = (words.next(), words.next(), words.next()) else {
        return None;
    };
    NameKind::try_from(number(kind)?).ok()
}

/// Replays a session: its first line is `kind K`, each other one a step. The lists hold arbitrary
/// contents at first.
pub fn replay(heap: Global, text: &str) -> Result<String, AllocError> {
    let mut lines = text.lines();
    match read_kind(lines.next().unwrap_or("")) {
        Some(NameKind::PointNames) => { replay_with(heap, PointName::new(b"USED").unwrap(), lines) }
        Some(NameKind::DayCells) => replay_with(heap, DayCell::new(999, 366).unwrap(), lines),
        None => {
            let unread = Uncalled::Unread;
            format!(in heap; "{unread}\n")
        }
    }
}
