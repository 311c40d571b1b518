//! What follows for every run. Each law is the contract of a function that does nothing.

ghost use Rattle.std.specs.Prelude.{◌≡◌, ℕ, ◌⊎◌, List, Option, Ok};
ghost use Rattle.report.specs.declared.whole.Report.{Report};
ghost use Rattle.report.specs.Report.{report_of};
ghost use Rattle.lineage_cli.specs.declared.command.Command.TheVariants as commands;
ghost use Rattle.lineage_cli.specs.Command.{Asks};
ghost use Rattle.lineage_cli.specs.Command.Rows.{StoresOwnRows};
ghost use Rattle.lineage_cli.specs.Complete.{HasInput, NoneFailed};
ghost use Rattle.lineage_cli.specs.Outside.{Outside};
ghost use Rattle.lineage_cli.specs.Run.{IsRun};

/// A run whose status isn't 5 made no call on its input or its output that failed: their counts of
/// failed calls are as before.
pub fn another_status_has_no_fault()
    ensures { (words : List (List ℕ)) (before : Outside) (after : Outside) (status : ℕ)
        → IsRun words before after status → (status ≡ 5 → ⊥)
        → (after.input.faults ≡ before.input.faults)
        × (after.output.counts.faults ≡ before.output.counts.faults) }
{}

/// A run whose words are right and whose input the command accepts answers, unless a call on a
/// stream failed or memory ran out: `rows` with 0, for a file that stores rows which can be read;
/// `audit` with 0 or 4, for a report.
pub fn accepted_input_is_answered()
    ensures rows { (words : List (List ℕ)) (before : Outside) (after : Outside) (status : ℕ)
        (first : Option ℕ) (sequence : ℕ) (bytes : List ℕ)
        → IsRun words before after status → Asks words (commands.Rows first sequence)
        → HasInput 67108864 before bytes → StoresOwnRows first bytes → NoneFailed before after
        → (status ≡ 0) ⊎ (status ≡ 6) }
    ensures audit { (words : List (List ℕ)) (before : Outside) (after : Outside) (status : ℕ)
        (bytes : List ℕ) (report : Report)
        → IsRun words before after status → Asks words commands.Audit
        → HasInput 16777216 before bytes → report_of bytes ≡ Ok report → NoneFailed before after
        → (status ≡ 0) ⊎ ((status ≡ 4) ⊎ (status ≡ 6)) }
{}
