//! Laws about the definitions.
ghost use Rattle.std.specs.Prelude.{◌≡◌, ◌++◌, ◌∷◌, [], codes, map, true, false};
ghost use Rattle.transyt_net.specs.declared.edit.Edit.{Edit};
ghost use Rattle.transyt_stage.specs.ThreeJunctions.{three_junctions};
ghost use Rattle.transyt_report.specs.declared.showing.Report.{Report};
ghost use Rattle.transyt_report.specs.Chart.{chart_line};
ghost use Rattle.transyt_report.specs.Measures.{degree_of_saturation, mean_delay, part_stopped, worst_of, flow_sent, link_figures};
ghost use Rattle.transyt_report.specs.Texts.{index_line, figures_line, node_text, timing_end, work_line, report_text};
ghost use Rattle.transyt_report.specs.Texts.{IsOfPlace, took_text, end_text};
ghost use Rattle.transyt_report.specs.WorkedCharts.{six_steps, six_marks, chart_of_three};
ghost use Rattle.transyt_report.specs.WorkedMeasures.{worked_degrees, worked_delays, worked_stops, worked_worst, sent_of_three};
ghost use Rattle.transyt_report.specs.WorkedMeasures.{longest_at_first, report_of_three};
ghost use Rattle.transyt_report.specs.WorkedTexts.{some_figures, figures_text, node_of_two, lines_of_two, node_of_three};
ghost use Rattle.transyt_report.specs.WorkedTexts.{lines_of_three, two_nodes, links_of_three, profile_of_fourth};
ghost use Rattle.transyt_report.specs.WorkedTexts.{queue_of_fourth};

/// The texts that are written beside the definitions, worked out apart, come out of them.
pub fn worked_texts()
    ensures figures { figures_line 9 some_figures ≡ figures_text }
    ensures two { node_text 18 node_of_two ≡ lines_of_two }
    ensures three { node_text 18 node_of_three ≡ lines_of_three }
    ensures timing { timing_end ≡ codes "END TIMING" ++ 10 ∷ [] }
    ensures index { index_line 556223009 ≡ codes "INDEX 556223009" ++ 10 ∷ [] }
    ensures work { work_line 1378 ≡ codes "WORK 1378" ++ 10 ∷ [] }
    ensures offset { took_text 24 (Edit.Offset 21 17) 530008683
        ≡ codes "TOOK 24 OFFSET 21 17 INDEX 530008683" ++ 10 ∷ [] }
    ensures change { took_text 29 (Edit.Change 21 2 7) 521795021
        ≡ codes "TOOK 29 CHANGE 21 2 7 INDEX 521795021" ++ 10 ∷ [] }
    ensures local { end_text true 192 518578809 ≡ codes "LOCAL 192 INDEX 518578809" ++ 10 ∷ [] }
    ensures budget { end_text false 5 1948618 ≡ codes "BUDGET 5 INDEX 1948618" ++ 10 ∷ [] }
{}

/// Reports of the three junctions, whose places count from 0 and whose links are eight, come out as they are written
/// beside the definitions.
pub fn worked_reports()
    ensures index { report_text three_junctions 1378 Report.Index
        ≡ codes "INDEX 556223009" ++ 10 ∷ [] }
    ensures links { report_text three_junctions 1378 Report.Links ≡ links_of_three }
    ensures timing { report_text two_nodes 1378 Report.Timing
        ≡ lines_of_three ++ (lines_of_two ++ (codes "END TIMING" ++ 10 ∷ [])) }
    ensures profile { report_text three_junctions 1378 (Report.Profile 3) ≡ profile_of_fourth }
    ensures queue { report_text three_junctions 1378 (Report.Queue 3) ≡ queue_of_fourth }
    ensures work { report_text three_junctions 1378 Report.Work ≡ codes "WORK 1378" ++ 10 ∷ [] }
    ensures last_place { IsOfPlace three_junctions (Report.Profile 7)
        × IsOfPlace three_junctions (Report.Queue 7) }
    ensures no_place { (IsOfPlace three_junctions (Report.Profile 8) → ⊥)
        × (IsOfPlace three_junctions (Report.Queue 8) → ⊥) }
{}

/// Figures in the units of an engineer come out as they are written beside the definitions: the formulas in each of
/// their cases, the first of the worst links, the flows sent on by the links of the three junctions, and FIGURES of them.
pub fn worked_measures()
    ensures degrees { map (λ row. degree_of_saturation row.0.0 row.0.1) worked_degrees
        ≡ map (λ row. row.1) worked_degrees }
    ensures delays { map (λ row. mean_delay row.0.0 row.0.1 row.0.2) worked_delays
        ≡ map (λ row. row.1) worked_delays }
    ensures stops { map (λ row. part_stopped row.0.0 row.0.1 row.0.2) worked_stops
        ≡ map (λ row. row.1) worked_stops }
    ensures worst { map (λ row. worst_of row.0) worked_worst ≡ map (λ row. row.1) worked_worst }
    ensures sent { map (λ row. flow_sent three_junctions.links row.0) sent_of_three
        ≡ map (λ row. row.1) sent_of_three }
    ensures longest { (link_figures longest_at_first 0).queue ≡ 3600000 }
    ensures report { report_text three_junctions 1378 Report.Figures ≡ report_of_three }
{}

/// Charts come out as they are written beside the definitions: each case of a step, and CHART of the three junctions.
pub fn worked_charts()
    ensures six { chart_line 17 six_steps.0 six_steps.1 ≡ six_marks }
    ensures three { report_text three_junctions 1378 Report.Chart ≡ chart_of_three }
{}
