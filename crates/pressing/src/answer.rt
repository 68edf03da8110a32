/// What an accepted fit found: the rotation, which is the vertex's value from then on, and how many
/// rotations were tried.
#[derive(Clone, Copy)]
pub struct Fit {
    pub rotation: u16,
    pub tries: u16,
}
