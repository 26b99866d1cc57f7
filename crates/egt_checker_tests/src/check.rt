//! Tables of the first six classes, and why others are refused.
mod circle;
mod refused;
mod shelved;
