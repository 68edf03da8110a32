ghost use Rattle.std.specs.Prelude.{◌≡◌, ℕ, ◌≤◌, Bool, true, false, List, ◌∷◌, length, MatchOption, slice_index};
ghost use Rattle.names.specs.Spellings.{Bytes};

/// A kind of name, implemented by the type of its names. It has a number, and each name has
/// an identity (a list of whole numbers) and a spelling (1 to 16 bytes).
pub trait Kind: Copy {
    /// The kind's number.
    ghost number: { ℕ };

    /// What a name is.
    ghost identity: { Self → List ℕ };

    /// How a name is written.
    ghost spelling: { Self → List ℕ };

    /// Whether bytes are judged to be the spelling of a name.
    ghost judged: { List ℕ → Bool };

    /// The kind's number.
    fn number() -> u8
        ensures { result ≡ number };

    /// The length of the name's spelling.
    fn len(&self) -> usize
        ensures { result ≡ length (spelling self.now) };

    /// The byte of the spelling at a place from 1 to its length, and 0 at any other.
    fn byte(&self, place: usize) -> u8
        ensures { result ≡ slice_index (0 ∷ spelling self.now) place };

    /// Whether some name of the kind is spelled so.
    fn judge(bytes: &[u8]) -> bool
        ensures { result ≡ judged bytes.now };

    /// The name that the bytes spell, or none exactly if they are not judged yes.
    fn spelled(bytes: &[u8]) -> Option<Self>
        ensures { MatchOption result (judged bytes.now ≡ false) (λ x. (judged bytes.now ≡ true) × (spelling x ≡ bytes.now)) };

    ghost number_from_1: { 1 ≤ number };

    ghost number_to_255: { number ≤ 255 };

    ghost spelling_from_1: { (x : Self) → 1 ≤ length (spelling x) };

    ghost spelling_to_16: { (x : Self) → length (spelling x) ≤ 16 };

    ghost spelled_in_bytes: { (x : Self) → Bytes (spelling x) };

    ghost one_spelling_one_identity: { (x y : Self) → spelling x ≡ spelling y → identity x ≡ identity y };

    ghost one_identity_one_spelling: { (x y : Self) → identity x ≡ identity y → spelling x ≡ spelling y };

    ghost spellings_are_judged_yes: { (x : Self) → judged (spelling x) ≡ true };

    ghost judged_yes_are_spellings: { (s : List ℕ) → Bytes s → judged s ≡ true → (x : Self) × (spelling x ≡ s) };
}

/// The byte of a spelling at a place, which counts from 1; 0 where there is none.
pub(crate) fn byte_at(spelling: &[u8], place: usize) -> u8
    ensures { result ≡ slice_index (0 ∷ spelling.now) place }
{
    place
        .checked_sub(1)
        .and_then(|index| spelling.get(index))
        .copied()
        .unwrap_or(0)
}
