// The areas of a workspace, for the operands that an expression has at a time (02, Item 8).
ghost use Rattle.std.specs.Prelude.{◌≡◌, ◌≤◌};
ghost use Rattle.expression.specs.Limits.{depth_limit, table_limit};
ghost use Rattle.checks.specs.Frames.{frame_of};

use crate::checking::Terms;

// How many areas, the last one scratch; the words of a row, the rows of an area, and the words of all areas.
#[derive(Clone, Copy)]
pub struct Frame {
    pub areas: usize,
    pub width: usize,
    pub limit: usize,
    pub need: usize,
}

// For d operands at most at a time, under limits that were tested.
pub fn frame_for(d: u64, terms: Terms) -> Frame
    requires { (d ≤ depth_limit) × (terms.pair_limit ≤ table_limit) × (terms.subset_limit ≤ table_limit) }
    ensures { result ≡ frame_of d terms.pair_limit terms.subset_limit }
{
    let areas = d as usize + 1;
    let width = terms.subset_limit as usize + 2;
    let limit = terms.pair_limit as usize;
    let need = areas * (limit * width);
    Frame {
        areas,
        width,
        limit,
        need,
    }
}
