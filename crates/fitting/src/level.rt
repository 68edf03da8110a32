/// A name of a level: its row, and its offset, the slot that it has as long as the vertex of
/// the level has the value 0.
#[derive(Clone, Copy)]
pub struct LevelName {
    pub row: u16,
    pub offset: u16,
}
