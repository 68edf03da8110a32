/// Why a part of a plate's string is not written.
#[derive(Clone, Copy, PartialEq, Eq, Debug, Drop)]
pub enum WriteFault {
    /// No vertex or no slot of this number.
    NoSuchPlace,
    /// Memory that ends before the part does.
    ShortMemory,
}
