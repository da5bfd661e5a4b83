// What holds of every run.
ghost use Rattle.std.specs.Prelude.{◌≡◌, ◌∷◌, ◌++◌, ℕ, nat_eq, List, [], filter, length};
ghost use Rattle.history_book.specs.Histories.{AreFronts, book_entry_pass, entries};
ghost use Rattle.history_book.specs.declared.views.BookEntry.{BookEntry as Booked};
ghost use Rattle.history_book.specs.declared.views.History.{History};
ghost use Rattle.mon_config.specs.declared.config.Config.{Config as ConfigOf};
ghost use Rattle.mon_topo.specs.HeldHistories.{first_histories, AreHeld};
ghost use Rattle.mon_value.specs.declared.histories.Histories.{Histories};
ghost use Rattle.run_theory.specs.Parts.{IsWithin, Part, all_lines};
ghost use Rattle.run_traces.specs.Headline.{RunHolds};
ghost use Rattle.run_traces.specs.LineClaims.{AllRan, Finds, HasWritten, HaveGrown, Makes};
ghost use Rattle.run_traces.specs.LineTexts.{line_text};
ghost use Rattle.run_traces.specs.RanLines.{RanLine, acts, parts_of};

use query_traces::traces_stay;

/// The parts of a script hold each line that does more than to begin a block or to end it, once and in order.
pub fn parts_keep_the_lines()
    ensures kept { (lines : List RanLine) → all_lines (parts_of lines) ≡ filter acts lines }
{}

/// No line has run where the caller has seen the first replicas alone. And a part more ran behind the others, where
/// its lines made and found what they owe over what the script's caller had seen before it and has seen behind it.
pub fn runs_go_on()
    ensures begun { (config : ConfigOf) → AllRan config (first_histories config.topology) [] }
    ensures more { (config : ConfigOf) (before after : Histories) (parts : List (Part RanLine)) (part : Part RanLine)
        → AllRan config before parts → HasWritten config before after part
        → AllRan config after (parts ++ part ∷ []) }
{
    traces_stay();
}

/// Where the parts of a script ran one after another, each line with what it made and found, and the histories at the end
/// go on in some that bear each other out, the tables, the rows, the refusals, the switches, the recoveries, the trims and
/// the retirements are as an operator reads them.
pub fn runs_hold()
    ensures holds { (config : ConfigOf) (ended whole : Histories) (parts : List (Part RanLine))
        → AreFronts (first_histories config.topology) ended → AreFronts ended whole
        → AreHeld config.schemas config.topology config.range_points whole → AllRan config ended parts
        → RunHolds config ended parts }
{
    traces_stay();
}

/// What a line found stays found as more is seen, up to all that is seen then, as long as nothing more is seen under
/// the line's number.
pub fn finds_stay()
    ensures later { (config : ConfigOf) (seen more : Histories) (from : History → ℕ) (number : ℕ) (line : RanLine)
        (made : History → List Booked) → HaveGrown seen more
        → ((history : History) → filter (λ e. nat_eq (book_entry_pass e) number) (entries more history)
        ≡ filter (λ e. nat_eq (book_entry_pass e) number) (entries seen history))
        → Makes config number line made
        → Finds config seen from (λ history. length (entries seen history)) number line
        → Finds config more from (λ history. length (entries more history)) number line }
{
    traces_stay();
}

/// A line that found what it owes prints the same over histories that are seen later.
pub fn texts_stay()
    ensures line { (config : ConfigOf) (seen more : Histories) (from to : History → ℕ) (number : ℕ) (line : RanLine)
        → HaveGrown seen more → IsWithin entries to seen → Finds config seen from to number line
        → line_text config more line ≡ line_text config seen line }
{
    traces_stay();
}
