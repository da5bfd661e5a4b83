// Worked examples of definitions. Who wants to know what a definition says finds here what it comes to, a line a case.
ghost use Rattle.std.specs.Prelude.{◌≡◌, [], ◌∷◌, ◌%◌, true, false, Some, None, codes, map, pos, neg_ℤ};
ghost use Rattle.std.specs.declared.cmp.Ordering.TheVariants.{Less};
ghost use Rattle.mon_hints.specs.Formulas.{All, And, Bucket, Or, formulas, holds};
ghost use Rattle.mon_hints.specs.Hints.{metric_bucket, pattern_excerpts, text_excerpts, value_buckets};
ghost use Rattle.mon_hints.specs.Hints.{value_excerpts, with_byte, with_bytes};
ghost use Rattle.mon_topo.specs.RangeHistories.{left_rows, serving_after};
ghost use Rattle.mon_value.specs.Grids.{grid_times};
ghost use Rattle.mon_value.specs.Groups.{mean_of, merged_of, percentile_of};
ghost use Rattle.mon_value.specs.Order.{target_cmp, value_cmp};
ghost use Rattle.mon_value.specs.Same.{is_match};
ghost use Rattle.mon_value.specs.Turns.{Adds, Hides, after_turns};
ghost use Rattle.mon_value.specs.Values.{number_of, value_text};
ghost use Rattle.mon_value.specs.declared.values.FieldValue.TheVariants as field;
ghost use Rattle.mon_value.specs.declared.values.Value.TheVariants as value;
ghost use Rattle.worked_examples.specs.Marked.{all_marked};
ghost use Rattle.worked_examples.specs.Replicas.{acknowledges, begins, bounds, ending, kept_in, opens, puts, replica_in};
ghost use Rattle.worked_examples.specs.Replicas.{retires, trims};

/// What is looked for in values: of a truth value its name, and in a text its windows of three bytes, with marks in
/// front and behind.
pub(crate) fn values_have_excerpts()
    ensures none { text_excerpts [] ≡ all_marked (map codes ("^^$" ∷ "^$$" ∷ [])) }
    ensures letter { text_excerpts (codes "a") ≡ all_marked (map codes ("^^a" ∷ "^a$" ∷ "a$$" ∷ [])) }
    ensures two { text_excerpts (codes "ab") ≡ all_marked (map codes ("^^a" ∷ "^ab" ∷ "ab$" ∷ "b$$" ∷ [])) }
    ensures many { text_excerpts (codes "monarch")
        ≡ all_marked (map codes ("^^m" ∷ "^mo" ∷ "mon" ∷ "ona" ∷ "nar" ∷ "arc" ∷ "rch" ∷ "ch$" ∷ "h$$" ∷ [])) }
    ensures truth { value_excerpts (field.Bool true) ≡ codes "true" ∷ [] }
{}

/// What is looked for of a pattern, by its pieces: one that is too short with its marks has no window.
pub(crate) fn patterns_have_excerpts()
    ensures front { pattern_excerpts (map codes ("mixer" ∷ "" ∷ []))
        ≡ all_marked (map codes ("^^m" ∷ "^mi" ∷ "mix" ∷ "ixe" ∷ "xer" ∷ [])) }
    ensures within { pattern_excerpts (map codes ("" ∷ "x" ∷ "" ∷ [])) ≡ [] }
    ensures longer { pattern_excerpts (map codes ("" ∷ "abc" ∷ "" ∷ [])) ≡ all_marked (map codes ("abc" ∷ [])) }
    ensures both { pattern_excerpts (map codes ("a" ∷ "b" ∷ [])) ≡ all_marked (map codes ("^^a" ∷ "b$$" ∷ [])) }
    ensures three { pattern_excerpts (map codes ("m" ∷ "xer" ∷ "z" ∷ []))
        ≡ all_marked (map codes ("^^m" ∷ "xer" ∷ "z$$" ∷ [])) }
    ensures whole { pattern_excerpts (codes "ab" ∷ []) ≡ all_marked (map codes ("^^a" ∷ "^ab" ∷ "ab$" ∷ "b$$" ∷ [])) }
    ensures any { pattern_excerpts (map codes ("" ∷ "" ∷ [])) ≡ [] }
{}

/// Which texts a pattern matches, by its pieces.
pub(crate) fn patterns_match()
    ensures front { is_match (map codes ("mixer" ∷ "" ∷ [])) (codes "mixer.zone") ≡ true }
    ensures behind { is_match (map codes ("mixer" ∷ "" ∷ [])) (codes "remixer") ≡ false }
    ensures apart { is_match (map codes ("ab" ∷ "bc" ∷ [])) (codes "abc") ≡ false }
    ensures within { is_match (map codes ("" ∷ "x" ∷ "" ∷ [])) (codes "mixer") ≡ true }
    ensures whole { is_match (codes "a" ∷ []) (codes "ab") ≡ false }
{}

/// The buckets of the series of `T` and `/m` with the texts `a` and `e`, among 1,024. The first two steps of a
/// fingerprint are those of the schema's name, from the start of all, and the zero behind it.
pub(crate) fn series_have_buckets()
    ensures schema { with_bytes 14695981039346656037 (codes "T") % 1024 ≡ 259 }
    ensures zero { with_byte (with_bytes 14695981039346656037 (codes "T")) 0 % 1024 ≡ 25 }
    ensures metric { metric_bucket 1024 (codes "T") (codes "/m") ≡ 803 }
    ensures other { metric_bucket 1024 (codes "T") (codes "/d") ≡ 776 }
    ensures host { value_buckets 1024 (codes "T") (codes "u") (field.Text (codes "a")) ≡ 345 ∷ 192 ∷ 343 ∷ [] }
    ensures place { value_buckets 1024 (codes "T") (codes "z") (field.Text (codes "e")) ≡ 872 ∷ 41 ∷ 1022 ∷ [] }
    ensures few { metric_bucket 64 (codes "T") (codes "/m") ≡ 35 }
    ensures most { metric_bucket 4096 (codes "T") (codes "/m") ≡ 1827 }
    ensures apart { metric_bucket 1024 (codes "S") (codes "/m") ≡ 126 }
{}

/// Whether a formula holds of a series that has some buckets.
pub(crate) fn formulas_hold()
    ensures all { holds All [] ≡ true }
    ensures none_of { holds (Or (formulas [])) (1 ∷ []) ≡ false }
    ensures all_of_none { holds (And (formulas [])) [] ≡ true }
    ensures both { holds (And (formulas (Bucket 41 ∷ Bucket 192 ∷ []))) (192 ∷ 41 ∷ []) ≡ true }
    ensures one { holds (And (formulas (Bucket 41 ∷ Bucket 192 ∷ []))) (41 ∷ []) ≡ false }
    ensures either { holds (Or (formulas (Bucket 41 ∷ Bucket 192 ∷ []))) (41 ∷ []) ≡ true }
{}

/// The times of a grid: back from its moment while they are above the reach.
pub(crate) fn grids_have_times()
    ensures one { grid_times (record { moment = pos 600; every = pos 60; within = pos 60 }) ≡ pos 600 ∷ [] }
    ensures up { grid_times (record { moment = pos 600; every = pos 60; within = pos 150 })
        ≡ pos 600 ∷ pos 540 ∷ pos 480 ∷ [] }
    ensures exactly { grid_times (record { moment = pos 600; every = pos 60; within = pos 120 })
        ≡ pos 600 ∷ pos 540 ∷ [] }
    ensures before { grid_times (record { moment = pos 10; every = pos 60; within = pos 61 })
        ≡ pos 10 ∷ neg_ℤ (pos 50) ∷ [] }
{}

/// A mean is rounded down, distributions are added bucket by bucket, and a percentile is a bound of a bucket.
pub(crate) fn aggregates_come_to()
    ensures mean { mean_of (pos 7 ∷ pos 2 ∷ []) ≡ Some (pos 4) }
    ensures below { mean_of (neg_ℤ (pos 7) ∷ pos 3 ∷ pos 2 ∷ []) ≡ Some (neg_ℤ (pos 1)) }
    ensures far_below { mean_of (neg_ℤ (pos 7) ∷ neg_ℤ (pos 2) ∷ []) ≡ Some (neg_ℤ (pos 5)) }
    ensures no_mean { mean_of [] ≡ None }
    ensures merged { merged_of ((4 ∷ 1 ∷ 1 ∷ []) ∷ (0 ∷ 2 ∷ 0 ∷ []) ∷ []) ≡ Some (4 ∷ 3 ∷ 1 ∷ []) }
    ensures zeros { merged_of ((0 ∷ 0 ∷ []) ∷ []) ≡ Some (0 ∷ 0 ∷ []) }
    ensures median { percentile_of (4 ∷ 1 ∷ 1 ∷ []) (pos 10 ∷ pos 100 ∷ []) 50 ≡ Some (pos 10) }
    ensures ninetieth { percentile_of (4 ∷ 1 ∷ 1 ∷ []) (pos 10 ∷ pos 100 ∷ []) 90 ≡ Some (pos 100) }
    ensures no_values { percentile_of (0 ∷ 0 ∷ 0 ∷ []) (pos 10 ∷ pos 100 ∷ []) 50 ≡ None }
{}

/// The order of values and of targets, by which rows are printed and ranges are bounded.
pub(crate) fn values_are_ordered()
    ensures numbers { value_cmp (value.Int (neg_ℤ (pos 7))) (value.Int (pos 3)) ≡ Less }
    ensures truths { value_cmp (value.Bool false) (value.Bool true) ≡ Less }
    ensures texts { value_cmp (value.Text (codes "B")) (value.Text (codes "a")) ≡ Less }
    ensures fronts { value_cmp (value.Text []) (value.Text (codes "B")) ≡ Less }
    ensures kinds { value_cmp (value.Int (pos 3)) (value.Bool false) ≡ Less }
    ensures counts { value_cmp (value.Dist (1 ∷ 9 ∷ [])) (value.Dist (2 ∷ [])) ≡ Less }
    ensures schemas { target_cmp (record { schema = codes "S"; fields = field.Int (pos 9) ∷ [] })
        (record { schema = codes "T"; fields = field.Int (pos 1) ∷ [] }) ≡ Less }
    ensures longer { target_cmp (record { schema = codes "T"; fields = field.Int (pos 1) ∷ [] })
        (record { schema = codes "T"; fields = field.Int (pos 1) ∷ field.Text (codes "a") ∷ [] }) ≡ Less }
{}

/// Numbers as points and scripts spell them, and values as they are printed.
pub(crate) fn values_are_spelled()
    ensures zeros { number_of (codes "-007") ≡ Some (neg_ℤ (pos 7)) }
    ensures sign { number_of (codes "-") ≡ None }
    ensures plus { number_of (codes "+1") ≡ None }
    ensures blank { number_of (codes " 1") ≡ None }
    ensures truth { value_text (value.Bool false) ≡ codes "false" }
    ensures text { value_text (value.Text (codes "a;b")) ≡ codes "a;b" }
{}

/// Which rows stand: a bound hides those that had come and end before it, and none that comes behind it.
pub(crate) fn trims_hide_rows()
    ensures hidden { after_turns [] (Adds (ending 10) ∷ Adds (ending 20) ∷ Hides (pos 20) ∷ []) ≡ ending 20 ∷ [] }
    ensures behind { after_turns [] (Hides (pos 20) ∷ Adds (ending 10) ∷ []) ≡ ending 10 ∷ [] }
    ensures begun { kept_in 2 (begins 2 (10 ∷ 20 ∷ []) ∷ trims 2 20 ∷ puts 2 30 ∷ []) ≡ map ending (20 ∷ 30 ∷ []) }
    ensures other { kept_in 0 (begins 0 (10 ∷ []) ∷ begins 1 (10 ∷ []) ∷ trims 1 20 ∷ []) ≡ ending 10 ∷ [] }
    ensures left { left_rows (acknowledges 10 ∷ bounds 20 [] ∷ acknowledges 15 ∷ []) ≡ ending 15 ∷ [] }
{}

/// Which replicas serve: one that missed a bound or was retired serves no longer.
pub(crate) fn replicas_serve()
    ensures missed { serving_after [] (opens 0 ∷ opens 1 ∷ bounds 20 (1 ∷ []) ∷ []) ≡ replica_in 0 ∷ [] }
    ensures retired { serving_after [] (opens 0 ∷ opens 1 ∷ retires 0 ∷ []) ≡ replica_in 1 ∷ [] }
    ensures again { serving_after [] (opens 0 ∷ opens 1 ∷ retires 0 ∷ opens 2 ∷ []) ≡ map replica_in (1 ∷ 2 ∷ []) }
{}
