//! Writing the entries of a stack.
ghost use Rattle.std.specs.Prelude.{◌≡◌, ℕ, ◌/◌, ◌<◌, length, ◌≢◌};
ghost use Rattle.walk.specs.Stacks.{frame_at, waiting_at};

use crate::stack::{Frame, Piece};

/// Has the piece wait at `k`.
pub(crate) fn pause(stack: &mut [Frame], k: usize, piece: Piece)
    requires { k / 2 < length stack.old }
    ensures new { waiting_at stack.new k ≡ piece }
    ensures others { (j : ℕ) → (j ≢ k) → waiting_at stack.new j ≡ waiting_at stack.old j }
    ensures contents { (i : ℕ) → (frame_at stack.new i).content ≡ (frame_at stack.old i).content }
{
    let frame = &mut stack[k / 2];
    frame.waiting[k % 2] = piece;
}

/// Begins the entry `i` of a tree with this content at its foot, and lets the pieces wait that wait there.
pub(crate) fn begin(stack: &mut [Frame], i: usize, content: Option<Piece>)
    requires { i < length stack.old }
    ensures new { (frame_at stack.new i).content ≡ content }
    ensures waits { (j : ℕ) → waiting_at stack.new j ≡ waiting_at stack.old j }
    ensures others { (j : ℕ) → (j ≢ i) → (frame_at stack.new j).content ≡ (frame_at stack.old j).content }
{
    stack[i].content = content;
}
