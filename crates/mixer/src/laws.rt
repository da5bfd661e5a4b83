// What holds of typed queries over rows that are divided into zones and leaves.
ghost use Rattle.std.specs.Prelude.{◌≡◌, ◌≤ℤ◌, ◌∷◌, ◌++◌, ℕ, ℤ, pos, List, IsPermutation, map, sum_by};
ghost use Rattle.mon_value.specs.Groups.{top_rows};
ghost use Rattle.mon_value.specs.declared.refusals.Refusal.{Refusal};
ghost use Rattle.mon_value.specs.declared.rows.Row.{Row};
ghost use Rattle.mon_value.specs.declared.tables.TimedRow.{TimedRow};
ghost use Rattle.typed_trees.specs.LevelLoads.{leaf_load, root_load, zone_load};
ghost use Rattle.typed_trees.specs.Levels.{is_leaf, leaf_part, top_parts, zone_part};
ghost use Rattle.typed_trees.specs.Meaning.{load, load_of, grid_of, meaning};
ghost use Rattle.typed_trees.specs.Nodes.{TypedTree};
ghost use Rattle.typed_trees.specs.Soundness.{IsTyped};
ghost use Rattle.mon_fold.specs.declared.answers.LeafAnswer.{LeafAnswer};
ghost use Rattle.mon_meaning.specs.Central.{IsRefusedBy};
ghost use Rattle.mon_meaning.specs.LeafAnswers.{IsRefusedByLeaf};
ghost use Rattle.mon_meaning.specs.declared.meter.OverLimit.{OverLimit};
ghost use Rattle.mixer.specs.Divisions.{IsDivided, all_rows, together};
ghost use Rattle.mon_meaning.specs.ReadableSlots.{AreApart, ShareNoTarget};
ghost use Rattle.mixer.specs.Mixing.{SamePieces, mixed_load, mixed_table, root_joins, zone_answer, zone_joins};
ghost use Rattle.mixer.specs.ZoneAnswers.{AllLeafParts, AreLeafParts, IsRefusedByZone};

/// Where no two leaves of a zone share a target and no two zones share a location, the table that the root makes has
/// the rows that the query means over all rows, in some order; and what leaves, zones and the root do for it adds up to
/// the load of the query. The pairs that the root makes are what it does itself.
pub fn divided_queries_are_mixed()
    ensures table { (typed : TypedTree) (zones : List (List (List Row))) (moment : ℤ)
        → pos 0 ≤ℤ moment → IsDivided typed zones
        → IsPermutation (mixed_table typed zones moment) (meaning typed (all_rows zones) moment) }
    ensures load { (typed : TypedTree) (zones : List (List (List Row))) (moment : ℤ)
        → pos 0 ≤ℤ moment → IsDivided typed zones
        → mixed_load typed zones moment ≡ load typed (all_rows zones) moment }
    ensures joins { (typed : TypedTree) (zones : List (List (List Row))) (moment : ℤ)
        → pos 0 ≤ℤ moment → IsDivided typed zones
        → root_joins typed (map (zone_answer typed moment) zones) ≡ root_load typed (all_rows zones) moment }
{}

/// Where no two leaves share a target, what their zone makes of what they hand up is what it is to hand up over the
/// rows of all of them, and they do as much as one leaf with all of these rows. The pairs that the zone makes are what
/// it does itself.
pub fn zones_mix_their_leaves()
    ensures pieces { (typed : TypedTree) (leaves : List (List Row)) (moment : ℤ)
        → pos 0 ≤ℤ moment → IsTyped typed (together leaves) → AreApart ShareNoTarget leaves
        → SamePieces (zone_part typed (together leaves) moment)
        (zone_answer typed moment leaves) }
    ensures loads { (typed : TypedTree) (leaves : List (List Row)) (moment : ℤ)
        → pos 0 ≤ℤ moment → IsTyped typed (together leaves) → AreApart ShareNoTarget leaves
        → sum_by (λ rows. leaf_load typed rows moment) leaves ≡ leaf_load typed (together leaves) moment }
    ensures joins { (typed : TypedTree) (leaves : List (List Row)) (moment : ℤ)
        → pos 0 ≤ℤ moment → IsTyped typed (together leaves) → AreApart ShareNoTarget leaves
        → zone_joins typed (map (λ rows. leaf_part typed rows moment) leaves)
        ≡ zone_load typed (together leaves) moment }
{}

/// Of rows that are to be cut to those that come first at each time, the first ones of each side are enough.
pub fn first_rows_are_enough()
    ensures of_one { (most column : ℕ) (rows others : List TimedRow)
        → top_rows most column (top_rows most column rows ++ others) ≡ top_rows most column (rows ++ others) }
    ensures of_both { (most column : ℕ) (rows others : List TimedRow)
        → IsPermutation (top_rows most column (top_rows most column rows ++ top_rows most column others))
        (top_rows most column (rows ++ others)) }
{}

/// What a leaf does of a query is the load of the parts of which it hands up pieces.
pub fn leaf_loads_are_of_parts()
    ensures load { (typed : TypedTree) (rows : List Row) (moment : ℤ)
        → pos 0 ≤ℤ moment → IsTyped typed rows
        → leaf_load typed rows moment
        ≡ sum_by (λ part. load_of (grid_of typed moment) part.1 rows) (top_parts is_leaf typed.tree) }
{}

/// The answers of a zone's leaves can be mixed, where the rows are divided.
pub fn zones_are_asked()
    ensures leaves { (typed : TypedTree) (before : List (List (List Row))) (leaves : List (List Row))
        (after : List (List (List Row))) (moment : ℤ) (limit : ℕ) (parts : List LeafAnswer)
        → pos 0 ≤ℤ moment → IsDivided typed (before ++ leaves ∷ after)
        → AllLeafParts typed leaves moment limit parts → AreLeafParts typed leaves moment limit parts }
{}

/// Where a leaf's part of a query, or a zone's, is above the limit, so is the query.
pub fn refused_parts_refuse_queries()
    ensures leaf { (typed : TypedTree) (before : List (List (List Row))) (first : List (List Row)) (rows : List Row)
        (rest : List (List Row)) (after : List (List (List Row))) (moment : ℤ) (limit : ℕ) (refused : Refusal OverLimit)
        → pos 0 ≤ℤ moment → IsDivided typed (before ++ (first ++ rows ∷ rest) ∷ after)
        → IsRefusedByLeaf typed rows moment limit refused
        → IsRefusedBy typed (all_rows (before ++ (first ++ rows ∷ rest) ∷ after)) moment limit refused }
    ensures zone { (typed : TypedTree) (before : List (List (List Row))) (leaves : List (List Row))
        (after : List (List (List Row))) (moment : ℤ) (limit : ℕ) (refused : Refusal OverLimit)
        → pos 0 ≤ℤ moment → IsDivided typed (before ++ leaves ∷ after)
        → IsRefusedByZone typed leaves moment limit refused
        → IsRefusedBy typed (all_rows (before ++ leaves ∷ after)) moment limit refused }
{}
