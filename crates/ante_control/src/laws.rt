//! What is true of every run of pushes.
ghost use Rattle.std.specs.Prelude.{◌≡◌, List, Result};
ghost use Rattle.ante_types.specs.declared.chain.Block.{Block};
ghost use Rattle.ante_control.specs.declared.error.Pushed.{Pushed};
ghost use Rattle.ante_control.specs.declared.error.PushError.{PushError};
ghost use Rattle.ante_control.specs.Chosen.{Play, Choice, chosen};
ghost use Rattle.ante_control.specs.Tabled.{Standing};
ghost use Rattle.ante_control.specs.Pushing.{IsPushed, with_arrival};

use ante_machine::BlockMachine;

/// The chain's choice is that of all arrivals so far: the blocks that were accepted, and those with an invalid block on their branch.
pub fn pushes_are_arrivals<M: BlockMachine>()
    ensures { (p : Play M.World) (start : Choice) (bs : List Block) (b : Block) (old new : Standing M.World) (result : Result Pushed PushError) → old.choice ≡ chosen p start bs → IsPushed p b old new result → new.choice ≡ chosen p start (with_arrival bs b result) }
{}
