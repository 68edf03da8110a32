ghost use Rattle.std.specs.Prelude.{◌≡◌, ℕ, ◌-◌, ◌≤◌, Bool, true, List, ◌++◌, length, take, replicate, MatchOption};
ghost use Rattle.refusals.specs.Checks.{Answered};
ghost use Rattle.names.specs.Points.{all_visible, point_judged, point_fault};
ghost use Rattle.names.specs.Judged.{visible_low, point_parts};
ghost use Rattle.std.proofs.Common.{rules};

use crate::fault::NameFault;
use crate::kind::{Kind, byte_at};

const KIND: u8 = 1;

/// A point name: 1 to 16 bytes from 33 to 126, which are its identity and its spelling.
#[derive(Clone, Copy)]
pub struct PointName {
    bytes: [u8; 16],
    len: u8,
    ghost whole: { length bytes ≡ 16 },
    ghost some: { 1 ≤ len },
    ghost few: { len ≤ 16 },
    ghost visible: { all_visible (take len bytes) ≡ true },
}

/// Whether the bytes are a point name.
fn is_point(bytes: &[u8]) -> bool
    ensures { result ≡ point_judged bytes.now }
{
    (1..=16).contains(&bytes.len()) && bytes.iter().all(u8::is_ascii_graphic)
}

/// The bytes, and zeros after them.
fn padded(bytes: &[u8]) -> [u8; 16]
    requires { length bytes.now ≤ 16 }
    ensures whole { length result ≡ 16 }
    ensures kept { take (length bytes.now) result ≡ bytes.now }
{
    let mut whole = [0; 16];
    whole[..bytes.len()].copy_from_slice(bytes);
    whole
}

impl PointName {
    /// The name of these bytes; refused with 1 exactly if they are outside the ranges.
    pub fn new(bytes: &[u8]) -> Result<PointName, NameFault>
        ensures { Answered (point_fault bytes.now) (λ x. take x.len x.bytes ≡ bytes.now) result }
    {
        if !is_point(bytes) {
            return Err(NameFault::OutsideRange);
        }
        Ok(PointName {
            bytes: padded(bytes),
            len: bytes.len() as u8,
        })
    }

    /// The bytes of the name.
    pub fn text(&self) -> &[u8]
        ensures { result.now ≡ take self.now.len self.now.bytes }
    {
        &self.bytes[..usize::from(self.len)]
    }
}

impl Kind for PointName {
    ghost number = { 1 };

    ghost identity = { λ x. take x.len x.bytes };

    ghost spelling = { λ x. take x.len x.bytes };

    ghost judged = { point_judged };

    ghost number_from_1 = { Prim.search rules };

    ghost number_to_255 = { Prim.search rules };

    ghost spelling_from_1 = { Prim.search rules };

    ghost spelling_to_16 = { Prim.search rules };

    ghost spelled_in_bytes = { λ x. visible_low (take x.len x.bytes) x.visible };

    ghost one_spelling_one_identity = { Prim.search rules };

    ghost one_identity_one_spelling = { Prim.search rules };

    ghost spellings_are_judged_yes = { Prim.search rules };

    ghost judged_yes_are_spellings = { λ s _ e. let p = point_parts s e in (record { bytes = s ++ replicate (16 - length s) 0; len = length s; whole = p.whole; some = p.some; few = p.few; visible = p.visible }, p.is) };

    fn number() -> u8 {
        KIND
    }

    fn len(&self) -> usize {
        usize::from(self.len)
    }

    fn byte(&self, place: usize) -> u8 {
        byte_at(self.text(), place)
    }

    fn judge(bytes: &[u8]) -> bool {
        is_point(bytes)
    }

    fn spelled(bytes: &[u8]) -> Option<PointName> {
        PointName::new(bytes).ok()
    }
}
