//! How pieces come to where they lead.

ghost use Rattle.std.specs.Prelude.{◌≡◌};
ghost use Rattle.rv_emit_layout.specs.Reaches.{branch_width, farthest, is_near, is_within_jump, jump_reach, jump_width, width};

use memory_map::Room;
use rv_emit_words::Piece;

/// How a piece comes to where it leads.
#[derive(Clone, Copy, PartialEq, Eq)]
pub enum Reach {
    /// By the branch alone.
    Near,
    /// By a jump of one word; of a branch, by the opposite one over that jump.
    Over,
    /// By two words, by way of a register; of a branch, by the opposite one over them.
    Far,
}

/// How a piece comes to where it leads in the longest layout: a jump of one word reaches all the code of a unit of the
/// smaller room.
pub fn farthest(room: Room) -> Reach
    ensures { result ≡ farthest room }
{
    match room {
        Room::Small => Reach::Over,
        Room::Large => Reach::Far,
    }
}

/// How many words a jump or a call has.
pub fn words_of_jump(reach: Reach) -> u32
    ensures { result ≡ jump_width reach }
{
    match reach {
        Reach::Near | Reach::Over => 1,
        Reach::Far => 2,
    }
}

/// How many words a branch has.
pub fn words_of_branch(reach: Reach) -> u32
    ensures { result ≡ branch_width reach }
{
    match reach {
        Reach::Near => 1,
        Reach::Over => 2,
        Reach::Far => 3,
    }
}

/// How many words a piece has.
pub fn words_of(piece: Piece, reach: Reach) -> u32
    ensures { result ≡ width reach piece }
{
    match piece {
        Piece::Word(_) => 1,
        Piece::Jump(_) | Piece::Call(_) => words_of_jump(reach),
        Piece::Branch { .. } => words_of_branch(reach),
    }
}

/// Whether a branch alone leads from one word to another.
pub fn is_near(from: u32, to: u32) -> bool
    ensures { result ≡ is_near from to }
{
    from.saturating_sub(to) <= 1024 && to.saturating_sub(from) <= 1023 && from.max(to) < u32::MAX
}

/// Whether a jump of one word leads from one word to another.
fn is_within_jump(from: u32, to: u32) -> bool
    ensures { result ≡ is_within_jump from to }
{
    from.saturating_sub(to) <= 262_144
        && to.saturating_sub(from) <= 262_143
        && from.max(to) < u32::MAX
}

/// How a jump comes from one word to another.
pub fn jump_reach(room: Room, from: u32, to: u32) -> Reach
    ensures { result ≡ jump_reach room from to }
{
    match room {
        Room::Small => Reach::Over,
        Room::Large => if is_within_jump(from, to) {
            Reach::Over
        } else {
            Reach::Far
        },
    }
}
