//! Small games whose values were worked out by hand, runs by rounds in whatever order, and what a game is asked.
mod games;
mod hand_made;
mod nearest;
mod orders;
mod places;
mod walks;
