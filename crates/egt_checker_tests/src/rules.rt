//! Rules of play: squares, moves, moves backward, texts of positions, classes and indexes. Figures come from outside.
mod board;
mod class;
mod fen;
mod index;
mod men;
mod moves;
mod unmoves;
