//! A player with its observer.
use crate::player::Player;

/// A player with its observer.
#[derive(Drop)]
pub struct Observed<O: Drop> {
    pub player: Player,
    pub observer: O,
}
