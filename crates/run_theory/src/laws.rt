// What holds of every run.
ghost use Rattle.std.specs.Prelude.{◌≡◌, ◌≤◌, ◌<◌, ◌∷◌, ◌++◌, ℕ, List, Bool, true, Some, [], filter, length, slice_get};
ghost use Rattle.std.specs.List.{AllByRecursion, flat_map, list_any};
ghost use Rattle.run_theory.specs.InPlace.{AreDistinct, AreNotFirst, AreTheirs, AreUnder, FoundThere, RanInPlace};
ghost use Rattle.run_theory.specs.InPlace.{first_place, last_end, AreAlone, IsAlone};
ghost use Rattle.run_theory.specs.Parts.{GrowAlong, IsWithin, PartsRan, between, Each, Part, all_lines, lines_of};
ghost use Rattle.run_theory.specs.Tellings.{TellNoOthers, TellTheirs, told_under};
ghost use Rattle.run_theory.specs.Writings.{PartWrote};
ghost use mathlib.Core.List.{IsPrefix};

use crate::lines::Lines;

/// The least length that holds every entry that passes a test holds each of them, and no less would; the greatest
/// length that holds none holds none of them, and no greater would.
pub fn places_are_found<E>()
    ensures end_holds { (test : ℕ → E → Bool) (history : List E) (k : ℕ) (e : E)
        → slice_get history k ≡ Some e → test k e ≡ true → k < last_end test history }
    ensures end_least { (test : ℕ → E → Bool) (history : List E) (n : ℕ)
        → ((k : ℕ) (e : E) → slice_get history k ≡ Some e → test k e ≡ true → k < n) → last_end test history ≤ n }
    ensures place_holds { (test : ℕ → E → Bool) (history : List E) (k : ℕ) (e : E)
        → slice_get history k ≡ Some e → test k e ≡ true → first_place test history ≤ k }
    ensures place_within { (test : ℕ → E → Bool) (history : List E) → first_place test history ≤ length history }
    ensures place_greatest { (test : ℕ → E → Bool) (history : List E) (n : ℕ) → n ≤ length history
        → ((k : ℕ) (e : E) → slice_get history k ≡ Some e → test k e ≡ true → n ≤ k)
        → n ≤ first_place test history }
{}

/// Who had seen all entries of a number still has as it sees more, as long as what it sees of them begins all that
/// there is.
pub fn whole_numbers_stay_seen<E>()
    ensures still { (is_under : E → Bool) (before after own : List E) → IsPrefix before after
        → filter is_under before ≡ own → IsPrefix (filter is_under after) own → filter is_under after ≡ own }
{}

/// How the parts of a script ran stays so as histories grow.
pub fn runs_stay<L: Lines>()
    ensures grown { (whole more : L.Seen) (from to : L.History → ℕ) (parts : List (Part L.Line))
        → GrowAlong L.content L.grown L.finds → IsWithin L.content to whole → L.grown whole more
        → PartsRan L.content L.under L.makes L.finds whole from to parts
        → PartsRan L.content L.under L.makes L.finds more from to parts }
{}

/// A part more ran behind the others, where its lines wrote under numbers of their own what their caller has seen
/// behind it and had not seen before.
pub fn runs_go_on<L: Lines>()
    ensures more { (begin : L.History → ℕ) (before after : L.Seen) (parts : List (Part L.Line))
        (part : Part L.Line)
        → GrowAlong L.content L.grown L.finds → PartsRan L.content L.under L.makes L.finds before begin
        (λ h. length (L.content before h)) parts
        → PartWrote L.content L.under L.makes L.finds L.grown before after part
        → PartsRan L.content L.under L.makes L.finds after begin (λ h. length (L.content after h))
        (parts ++ part ∷ []) }
{}

/// Each line of a script ran in its place: behind every entry of the lines that its caller had seen, and before every
/// entry of those whose callers had seen it. And its own entries stand where it ran.
pub fn lines_ran_in_place<L: Lines>()
    ensures placed { (is_of : L.Line → L.History → ℕ → L.Entry → Bool) (whole : L.Seen) (begin end : L.History → ℕ)
        (parts : List (Part L.Line))
        → AreUnder L.content L.under L.makes L.finds is_of whole
        → AreDistinct L.content L.under L.makes L.finds is_of whole
        → AreNotFirst L.content L.under L.makes L.finds is_of whole begin
        → ((h : L.History) → end h ≡ length (L.content whole h))
        → PartsRan L.content L.under L.makes L.finds whole begin end parts
        → Each (RanInPlace L.content L.under L.makes (FoundThere L.content is_of L.finds) is_of whole begin) [] parts }
{}

/// No two lines of a script share an entry, neither one that ran before the other nor two that ran beside each other.
pub fn lines_share_no_entry<L: Lines>()
    ensures later { (is_of : L.Line → L.History → ℕ → L.Entry → Bool) (whole : L.Seen) (begin end : L.History → ℕ)
        (parts : List (Part L.Line))
        → AreUnder L.content L.under L.makes L.finds is_of whole
        → AreDistinct L.content L.under L.makes L.finds is_of whole
        → AreNotFirst L.content L.under L.makes L.finds is_of whole begin
        → ((h : L.History) → end h ≡ length (L.content whole h))
        → PartsRan L.content L.under L.makes L.finds whole begin end parts
        → Each (λ seen later line. IsAlone is_of (L.content whole) line later) [] parts }
    ensures beside { (is_of : L.Line → L.History → ℕ → L.Entry → Bool) (whole : L.Seen) (begin end : L.History → ℕ)
        (parts : List (Part L.Line))
        → AreUnder L.content L.under L.makes L.finds is_of whole
        → AreDistinct L.content L.under L.makes L.finds is_of whole
        → AreNotFirst L.content L.under L.makes L.finds is_of whole begin
        → ((h : L.History) → end h ≡ length (L.content whole h))
        → PartsRan L.content L.under L.makes L.finds whole begin end parts
        → AllByRecursion (λ part. AreAlone is_of (L.content whole) (lines_of part)) parts }
{}

/// Each entry, from before the first line to behind the last one, is of some line.
pub fn every_entry_is_of_a_line<L: Lines>()
    ensures theirs { (is_of : L.Line → L.History → ℕ → L.Entry → Bool) (whole : L.Seen)
        (from to : L.History → ℕ) (parts : List (Part L.Line)) (h : L.History) (k : ℕ) (e : L.Entry)
        → AreTheirs L.content L.under L.makes L.finds is_of whole
        → PartsRan L.content L.under L.makes L.finds whole from to parts
        → slice_get (L.content whole h) k ≡ Some e → from h ≤ k → k < to h
        → list_any (λ line. is_of line h k e) (all_lines parts) ≡ true }
{}

/// What the entries under a number tell, from before the first line to behind the last one, is what the lines of that
/// number tell, in their order.
pub fn lines_tell_all<L: Lines, X>()
    ensures told { (told : L.Entry → List X) (tells : ℕ → L.Line → L.History → List X)
        (whole : L.Seen) (from to : L.History → ℕ) (parts : List (Part L.Line)) (n : ℕ)
        (h : L.History)
        → TellTheirs L.under L.makes told tells → TellNoOthers L.under L.makes told tells
        → PartsRan L.content L.under L.makes L.finds whole from to parts
        → flat_map (λ line. tells n line h) (all_lines parts)
        ≡ told_under L.under L.makes told tells n (between (from h) (to h) (L.content whole h)) }
{}
