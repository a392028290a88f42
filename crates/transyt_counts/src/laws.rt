//! Laws about the definitions.
ghost use Rattle.std.specs.Prelude.{◌≡◌, map};
ghost use Rattle.transyt_net.specs.WorkedNets.{town};
ghost use Rattle.transyt_counts.specs.Counts.{answer_of, counts_of, read_rows, flow_of, keys_of};
ghost use Rattle.transyt_counts.specs.Exact.{AreExact, set_flows};
ghost use Rattle.transyt_counts.specs.Rows.{read_row};
ghost use Rattle.transyt_counts.specs.WorkedTables.{worked_rows, worked_tables, worked_texts};
ghost use Rattle.transyt_counts.specs.WorkedTables.{fed_count, four_counts, three_edits, two_counts};
ghost use Rattle.transyt_counts.specs.WorkedTables.{town_of_fed, town_of_two};

/// The worked rows and tables come out as they are written beside the definitions, and so do the networks with counted
/// flows; the edits of four rows are exact.
#[tactic(auto, using(crate::proofs::Worked::texts, crate::proofs::Worked::exact))]
pub fn worked_counts()
    ensures rows { map (λ row. read_row town 6 row.0) worked_rows ≡ map (λ row. row.1) worked_rows }
    ensures tables { map (λ table. answer_of (read_rows town 1 table.0)) worked_tables
        ≡ map (λ table. table.1) worked_tables }
    ensures texts { map (λ text. counts_of town text.0) worked_texts
        ≡ map (λ text. text.1) worked_texts }
    ensures own { set_flows (keys_of two_counts) (flow_of two_counts) town ≡ town_of_two }
    ensures fed { set_flows (keys_of fed_count) (flow_of fed_count) town ≡ town_of_fed }
    ensures exact { AreExact town four_counts three_edits }
{}
