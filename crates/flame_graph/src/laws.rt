//! Laws of boxes, which do nothing when a program runs.

ghost use Rattle.std.specs.Prelude.{◌≡◌, ℕ, List};
ghost use Rattle.flame_graph.specs.declared.stack.FoldedStack.{FoldedStack};
ghost use Rattle.flame_graph.specs.Boxes.{boxes_of};
ghost use Rattle.flame_graph.specs.Stacks.{samples};
ghost use Rattle.flame_graph.specs.Sums.{deep_samples, widths_at};

/// The boxes at a depth are together as wide as the samples of the stacks that have more names than it says; those of the outermost
/// names as all samples.
pub fn widths_are_samples()
    ensures each { (depth : ℕ) (stacks : List FoldedStack) → widths_at depth (boxes_of stacks) ≡ deep_samples depth stacks }
    ensures outermost { (stacks : List FoldedStack) → widths_at 0 (boxes_of stacks) ≡ samples stacks }
{}
