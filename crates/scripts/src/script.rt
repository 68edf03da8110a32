use pressing::lists::Lengths;

/// A call of a script, with what it takes beside the lists.
#[derive(Drop)]
pub enum Call<N, W> {
    /// A name and its setting.
    Enter(N, u16),
    /// r and the seed.
    Map(u16, u32),
    Order,
    /// The way.
    Fit(W),
    Reopen,
    Seal,
}

/// How much a call is lent: of each work list and of the string memory a first part of this length, or
/// the whole where there is less.
#[derive(Clone, Copy, Drop)]
pub struct Lent {
    pub lists: Lengths,
    pub string: usize,
}

/// A call, and how much it is lent.
#[derive(Drop)]
pub struct Step<N, W> {
    pub call: Call<N, W>,
    pub lent: Lent,
}
