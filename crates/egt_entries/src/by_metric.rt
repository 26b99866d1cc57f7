//! One number a metric.

/// A number for each metric: entries, or scores.
#[derive(Clone, Copy)]
pub struct ByMetric {
    pub mate: u16,
    pub zeroing: u16,
}
