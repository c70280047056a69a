//! Laws of runs: what a rehearsal is where the broker has no faults, how any run goes on and ends, and that no secret changes
//! what a live run says.
ghost use Rattle.std.specs.Prelude.{◌≡◌};
ghost use Rattle.program_lines.specs.declared.limits.TheConstants.{MOST_LINE, ROOM};
ghost use Rattle.tick_runs.specs.declared.rehearse.fault_words.TheConstants.{MOST_NUMBER};
ghost use Rattle.tick_runs.specs.declared.live.listening.TheConstants.{MOST_EVENTS, MOST_EVENT_READS};
ghost use Rattle.tick_runs.specs.declared.rehearse.playing.TheConstants.{MOST_WAKES};
ghost use Rattle.tick_runs.specs.Laws.{AnswersTakenLaw, LeastLaw, PlannedRunLaw, RehearsalLaw, SoFarLaw, StandsLaw};
ghost use Rattle.tick_runs.specs.PlannedRehearsal.{PlannedRehearsalLaw};
ghost use Rattle.tick_runs.specs.Secrecy.{AlikeAnswersLaw, AlikeLookupsLaw, AlikeOpeningsLaw, AlikeRunsLaw};
ghost use Rattle.tick_runs.specs.Stops.{AnswerMoreLaw, EndLaw, NeverRefusedLaw, SplitLaw, TickMoreLaw};

/// The law of a run so far: without faults, the run of an inventory that a plan keeps has its rounds at the plan's moments,
/// tells each asked entry the renewal rule's end, and keeps the row of each entry listed until its need.
pub fn so_far_law()
    ensures { SoFarLaw }
{}

/// The law of the whole run: it has exactly the rounds of the plan, and as many requests as its Asks.
pub fn rehearsal_law()
    ensures { RehearsalLaw }
{}

/// The law of the least run, of any inventory: its rounds are the least and latest plan for the needs that the opening leaves
/// in force, and no plan that keeps those has fewer wake-ups than the rehearsal made.
pub fn least_law()
    ensures { LeastLaw }
{}

/// The law of a tick more: what the outer loop keeps goes on by a tick.
pub fn tick_more_law()
    ensures { TickMoreLaw }
{}

/// The law of an answer more: what the inner loop keeps goes on by an answer.
pub fn answer_more_law()
    ensures { AnswerMoreLaw }
{}

/// The law of the end: what the outer loop keeps is then the closed run, and its text is whole with the last line.
pub fn end_law()
    ensures { EndLaw }
{}

/// The law of answers: without faults no answer of a round is refused, unless memory runs out.
pub fn answers_taken_law()
    ensures { AnswersTakenLaw }
{}

/// The law over the bytes of an inventory and the plan that `plan` gives: how the run's text ends.
pub fn planned_run_law()
    ensures { PlannedRunLaw }
{}

/// The law of refusals: in a run with any faults, the keeper refuses neither the next tick nor the next answer, but where a
/// plan would be too long or memory is wanting.
pub fn never_refused_law()
    ensures { NeverRefusedLaw }
{}

/// The law that a run is cut anywhere.
pub fn split_law()
    ensures { SplitLaw }
{}

/// The law of standing rows: each entry that is needed is listed at each moment before its need.
pub fn stands_law()
    ensures { StandsLaw }
{}

/// The law of a planned rehearsal: where [`plan`](plan_search::plan) keeps with at most 100,000 wake-ups, the rehearsal without
/// FAULT words comes to its end but for a writer that fails and lack of memory, and makes exactly these wake-ups.
pub fn planned_rehearsal_law()
    ensures { PlannedRehearsalLaw }
{}

/// The law that secrets change no answer of a live run: of two inventories that differ in their credentials alone, and over two
/// brokers that do, the same event lines are answered by the same lines, and leave one keeper. The lookups before them are applied
/// to both or to neither, and open both runs by the same lines, with one keeper. So two whole runs have one text.
pub fn secrets_change_no_answer()
    ensures answers { AlikeAnswersLaw }
    ensures lookups { AlikeLookupsLaw }
    ensures openings { AlikeOpeningsLaw }
    ensures runs { AlikeRunsLaw }
{
    vault_json::laws::looked_lease_is_read();
}

/// The limits of rehearsals as numbers: the most wake-ups, and the greatest number that a FAULT word names. It does nothing.
pub fn limits_of_rehearsals()
    ensures wakes { MOST_WAKES ≡ 100000 }
    ensures number { MOST_NUMBER ≡ 1000000 }
{}

/// The limits of live runs as numbers: the bytes of one event line with its line feed, the bytes of all of them, the reads that
/// are made for them, and the bytes that one read hands out at most. It does nothing.
pub fn limits_of_live_runs()
    ensures line { MOST_LINE ≡ 256 }
    ensures events { MOST_EVENTS ≡ 1048576 }
    ensures reads { MOST_EVENT_READS ≡ 65536 }
    ensures room { ROOM ≡ 4096 }
{}
