//! Laws about the definitions.
ghost use Rattle.std.specs.Prelude.{◌≡◌, ℕ, ◌++◌, codes, flat_map, Some, None};
ghost use Rattle.std.specs.List.{range_with_len};
ghost use Rattle.transyt_io.specs.Lines.{lines, words};
ghost use Rattle.transyt_net.specs.declared.edit.Edit.{Edit};
ghost use Rattle.transyt_net.specs.Parts.{Network};
ghost use Rattle.transyt_moves.specs.Moves.{move_count};
ghost use Rattle.transyt_sweep.specs.Sweeps.{index};
ghost use Rattle.transyt_audit.specs.Certificate.{joined, CertLine, new_line, cert_text, cert_texts, move_words};
ghost use Rattle.transyt_audit.specs.Certificate.{end_words, place_text, last_text};

/// A certificate's text reads back: its lines are its texts, and the words of these are those that were put. It is the
/// text of each place's line, in the order of the list, and then that of the last line.
#[tactic(auto, using(crate::proofs::CertificateLaws::lines_certificate, crate::proofs::CertificateLaws::words_move, crate::proofs::CertificateLaws::words_end, crate::proofs::CertificateLaws::text_by_place))]
pub fn certificate_reads_back()
    ensures lines { (net : Network) → lines (cert_text net) ≡ cert_texts net }
    ensures moves { (l : CertLine) → words (joined (move_words l)) ≡ move_words l }
    ensures last { (count x : ℕ) → words (joined (end_words count x)) ≡ end_words count x }
    ensures by_place { (net : Network) → cert_text net
        ≡ flat_map (place_text net) (range_with_len 0 (move_count net))
        ++ last_text (move_count net) (index net) }
{}

/// Lines of a certificate that was worked out apart.
#[tactic(auto, using(crate::proofs::WorkedCertificate::line_of_offset, crate::proofs::WorkedCertificate::line_of_barred, crate::proofs::WorkedCertificate::line_of_end))]
pub fn worked_lines()
    ensures offset { joined (move_words (new_line 14 (Edit.Offset 300 15) (Some 520471746)))
        ≡ codes "MOVE 14 OFFSET 300 15 INDEX 520471746" }
    ensures barred { joined (move_words (new_line 53 (Edit.Change 21 2 1) None))
        ≡ codes "MOVE 53 CHANGE 21 2 1 BARRED" }
    ensures last { joined (end_words 72 518578809) ≡ codes "CERT 72 INDEX 518578809" }
{}
