//! Laws about the definitions.
ghost use Rattle.std.specs.Prelude.{◌≡◌, map};
ghost use Rattle.transyt_commands.specs.Commands.{command_in};
ghost use Rattle.transyt_commands.specs.WorkedLines.{worked};

/// The worked lines have the commands and codes that are written beside the definitions.
#[tactic(auto, using(crate::proofs::Worked::all_worked))]
pub fn worked_lines()
    ensures { map (λ row. command_in row.0) worked ≡ map (λ row. row.1) worked }
{}
