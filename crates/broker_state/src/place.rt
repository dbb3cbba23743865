//! Where a broker holds a partition.

/// Where a broker holds a partition, as it was looked up once: the index of its topic among the
/// broker's, and its index among those of the topic.
#[derive(Clone, Copy)]
pub struct Place {
    /// The index of the topic.
    pub topic: usize,
    /// The index of the partition, which is its number.
    pub partition: usize,
}
