//! Laws about the definitions.

ghost use Rattle.std.specs.Prelude.{◌≡◌, []};
ghost use Rattle.transyt_net.specs.declared.edit.Edit.TheVariants.{Change};
ghost use Rattle.transyt_net.specs.Parts.{Network};
ghost use Rattle.transyt_moves.specs.Moves.{moves, move, move_count};
ghost use Rattle.transyt_moves.specs.WorkedMoves.{two_nodes, moves_of_two};

/// The worked list of moves comes out as it is written beside the definitions; without a climb plan there is none.
pub fn worked_moves()
    ensures list { moves two_nodes ≡ moves_of_two }
    ensures count { move_count two_nodes ≡ 42 }
    ensures place { move two_nodes 16 ≡ Change 21 1 0 }
    ensures no_plan { moves (record two_nodes { plan = None }) ≡ [] }
{}
