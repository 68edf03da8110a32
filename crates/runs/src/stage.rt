/// The stages of a pressing, the making of one plate, in the order in which they follow one another.
#[derive(Clone, Copy, PartialEq, Eq, Debug, Drop)]
pub enum Stage {
    Open,
    Mapped,
    Ordered,
    Fitted,
    Sealed,
}
