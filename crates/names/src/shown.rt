use crate::cell::DayCell;
use crate::point::PointName;
use std::fmt;

/// The bytes of the name, each as its character.
impl fmt::Display for PointName {
    fn fmt<W: fmt::Write>(&self, f: &mut fmt::Formatter<W>) -> fmt::Result {
        for byte in self.text() {
            let letter = char::from(*byte);
            write!(f, "{letter}")?;
        }
        Ok(())
    }
}

/// The pan, the day and the four bytes of the spelling.
impl fmt::Display for DayCell {
    fn fmt<W: fmt::Write>(&self, f: &mut fmt::Formatter<W>) -> fmt::Result {
        let (pan, day) = self.pan_and_day();
        let [a, b, c, d] = self.bytes();
        write!(f, "pan {pan} day {day}, spelled {a} {b} {c} {d},")
    }
}
