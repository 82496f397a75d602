#![tactic(auto)]
// The laws of packing, each as the contract of a function that does nothing. What they say stands in specs/Laws.antt.
ghost use Rattle.geometry.specs.Laws.{NoOverlap, NoOverlapByNumber, AllStand, AllStandByNumber};
ghost use Rattle.geometry.specs.Laws.{HighestOfColumns, ColumnOfTops};
ghost use Rattle.geometry.specs.Laws.{LeftmostOnFloor, RightmostAtLeft, BottomRightFree};
ghost use Rattle.geometry.specs.Laws.{EdgesOfChildren, PackedBlocks};

// No two placed blocks share a unit cell.
pub fn no_overlap()
    ensures listed { NoOverlap }
    ensures numbered { NoOverlapByNumber }
{}

// Each placed block stands on the floor or on another.
pub fn all_stand()
    ensures listed { AllStand }
    ensures numbered { AllStandByNumber }
{}

// Heights over a span and heights of columns agree.
pub fn column_law()
    ensures spans { HighestOfColumns }
    ensures tops { ColumnOfTops }
{}

// The leftmost branch stands on the floor.
pub fn leftmost_on_floor()
    ensures { LeftmostOnFloor }
{}

// The rightmost branch stands at the left edge.
pub fn rightmost_at_left()
    ensures { RightmostAtLeft }
{}

// Nothing stands over a bottom-right branch without right children.
pub fn bottom_right_free()
    ensures { BottomRightFree }
{}

// The left edges follow the tree.
pub fn edges_of_children()
    ensures { EdgesOfChildren }
{}

// The placed blocks are the present ones, each once, in the plan's sizes.
pub fn packed_blocks()
    ensures { PackedBlocks }
{}
