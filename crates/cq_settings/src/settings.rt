/// The settings of a new queue, as they were given: they may be outside the limits.
#[derive(Debug, Drop)]
pub struct InitSettings {
    /// The word for the roll.
    pub roll: String,
    /// When cycle 0 begins, in milliseconds of Unix time.
    pub epoch: u64,
    /// The cells of a cycle, of four bytes each.
    pub cells: u64,
    /// The entries of an index table.
    pub index_count: u64,
    /// One message in this many has an entry in the index.
    pub index_spacing: u64,
    /// How many cycles may begin.
    pub cycles: u64,
    /// The names of the tailers.
    pub names: Vec<String>,
}
