ghost use Rattle.std.specs.Prelude.{◌≡◌, ℕ, ◌≤◌, Bool, true, false, List, [], ◌∷◌, length, MatchOption};
ghost use Rattle.refusals.specs.Checks.{Answered};
ghost use Rattle.names.specs.Spellings.{two_at};
ghost use Rattle.names.specs.Cells.{cell_spelling, cell_judged, cell_fault};
ghost use Rattle.names.specs.Judged.{cell_parts};
ghost use Rattle.std.proofs.Common.{rules};

use crate::fault::NameFault;
use crate::kind::Kind;

const KIND: u8 = 2;

/// The length of every spelling.
const LENGTH: usize = 4;

/// A day cell: a pan from 1 to 999 and a day from 1 to 366, which are its identity.
#[derive(Clone, Copy)]
pub struct DayCell {
    pan: u16,
    day: u16,
    ghost pan_from_1: { 1 ≤ pan },
    ghost pan_to_999: { pan ≤ 999 },
    ghost day_from_1: { 1 ≤ day },
    ghost day_to_366: { day ≤ 366 },
}

impl DayCell {
    /// The cell of a pan and a day; refused with 1 exactly if one is outside its range.
    pub fn new(pan: u16, day: u16) -> Result<DayCell, NameFault>
        ensures { Answered (cell_fault pan day) (λ x. (x.pan ≡ pan) × (x.day ≡ day)) result }
    {
        if !(1..=999).contains(&pan) || !(1..=366).contains(&day) {
            return Err(NameFault::OutsideRange);
        }
        Ok(DayCell { pan, day })
    }

    /// The pan and the day of the cell.
    pub fn pan_and_day(&self) -> (u16, u16)
        ensures { result ≡ (self.now.pan, self.now.day) }
    {
        (self.pan, self.day)
    }

    /// The bytes that spell the cell.
    pub(crate) fn bytes(self) -> [u8; 4]
        ensures { result ≡ cell_spelling self.pan self.day }
    {
        let [pan_high, pan_low] = self.pan.to_be_bytes();
        let [day_high, day_low] = self.day.to_be_bytes();
        [pan_high, pan_low, day_high, day_low]
    }
}

/// The cell that four bytes spell.
fn cell_in(bytes: &[u8]) -> Option<DayCell>
    ensures { MatchOption result (cell_judged bytes.now ≡ false) (λ x. (cell_judged bytes.now ≡ true) × (cell_spelling x.pan x.day ≡ bytes.now)) }
{
    let [pan_high, pan_low, day_high, day_low] = bytes else {
        return None;
    };
    let pan = u16::from_be_bytes([*pan_high, *pan_low]);
    let day = u16::from_be_bytes([*day_high, *day_low]);
    DayCell::new(pan, day).ok()
}

impl Kind for DayCell {
    ghost number = { 2 };

    ghost identity = { λ x. x.pan ∷ x.day ∷ [] };

    ghost spelling = { λ x. cell_spelling x.pan x.day };

    ghost judged = { cell_judged };

    ghost number_from_1 = { Prim.search rules };

    ghost number_to_255 = { Prim.search rules };

    ghost spelling_from_1 = { Prim.search rules };

    ghost spelling_to_16 = { Prim.search rules };

    ghost spelled_in_bytes = { Prim.search rules };

    ghost one_spelling_one_identity = { Prim.search rules };

    ghost one_identity_one_spelling = { Prim.search rules };

    ghost spellings_are_judged_yes = { Prim.search rules };

    ghost judged_yes_are_spellings = { λ s b e. let p = cell_parts s b e in (record { pan = two_at s 0; day = two_at s 2; pan_from_1 = p.pan_from_1; pan_to_999 = p.pan_to_999; day_from_1 = p.day_from_1; day_to_366 = p.day_to_366 }, p.is) };

    fn number() -> u8 {
        KIND
    }

    fn len(&self) -> usize {
        LENGTH
    }

    fn byte(&self, place: usize) -> u8 {
        let [pan_high, pan_low] = self.pan.to_be_bytes();
        let [day_high, day_low] = self.day.to_be_bytes();
        match place {
            1 => pan_high,
            2 => pan_low,
            3 => day_high,
            4 => day_low,
            _ => 0,
        }
    }

    fn judge(bytes: &[u8]) -> bool {
        cell_in(bytes).is_some()
    }

    fn spelled(bytes: &[u8]) -> Option<DayCell> {
        cell_in(bytes)
    }
}
