//! The families of samples: what each tells, in the order in which they are told.

/// The text in which metrics are told.
///
/// Source: Prometheus, "Exposition formats", text format 0.0.4; OpenMetrics 1.0.
#[derive(Clone, Copy, Debug, PartialEq, Eq)]
pub enum Format {
    Prometheus,
    OpenMetrics,
}

/// What the samples of a family are.
///
/// Source: Prometheus, "Metric types"; OpenMetrics 1.0, "Metric Types".
#[derive(Clone, Copy, Debug)]
pub(crate) enum FamilyKind {
    /// Numbers that go up and down.
    Gauge,
    /// Numbers that only go up while the agent runs.
    Counter,
}

/// What a family tells.
#[derive(Clone, Copy, Debug)]
pub(crate) enum Tells {
    /// What the build is.
    Build,
    /// How far the broker's clock is ahead.
    ClockOffset,
    /// A number of the agent, where it is known.
    Agent(Figure),
    /// Something of each entry.
    Entry(Column),
}

/// A number of the agent.
#[derive(Clone, Copy, Debug)]
pub(crate) enum Figure {
    Written,
    NextWake,
    Margin,
    FileIsGood,
    FileRead,
    FileReadGood,
    ChangesAreKept,
    Beginnings,
    DroppedLines,
    DroppedAlerts,
    Behind,
    LookedAhead,
    SteppedIn,
}

/// What is told of each entry.
#[derive(Clone, Copy, Debug)]
pub(crate) enum Column {
    State,
    End,
    NeedWanted,
    NeedCarried,
    NeedInForce,
    LastSuccess,
    Renewals,
}

/// All families: the name of each, without `_total`, its kind, what it tells, and its help.
pub(crate) const FAMILIES: [(&str, FamilyKind, Tells, &str); 22] = [
    (
        "leasekeep_build_info",
        FamilyKind::Gauge,
        Tells::Build,
        "1, with the version and whether its build was proved.",
    ),
    (
        "leasekeep_metrics_written_timestamp_seconds",
        FamilyKind::Gauge,
        Tells::Agent(Figure::Written),
        "When these figures were written.",
    ),
    (
        "leasekeep_next_wake_timestamp_seconds",
        FamilyKind::Gauge,
        Tells::Agent(Figure::NextWake),
        "The next wake-up.",
    ),
    (
        "leasekeep_margin_seconds",
        FamilyKind::Gauge,
        Tells::Agent(Figure::Margin),
        "How long before its end an entry is renewed.",
    ),
    (
        "leasekeep_clock_offset_seconds",
        FamilyKind::Gauge,
        Tells::ClockOffset,
        "How far the broker's clock is ahead of this machine's, where they differ.",
    ),
    (
        "leasekeep_config_last_reload_successful",
        FamilyKind::Gauge,
        Tells::Agent(Figure::FileIsGood),
        "Whether the inventory's file was good when it was last read.",
    ),
    (
        "leasekeep_config_last_reload_timestamp_seconds",
        FamilyKind::Gauge,
        Tells::Agent(Figure::FileRead),
        "When the file was last read.",
    ),
    (
        "leasekeep_config_last_reload_success_timestamp_seconds",
        FamilyKind::Gauge,
        Tells::Agent(Figure::FileReadGood),
        "When the file was last read and good.",
    ),
    (
        "leasekeep_changes_kept",
        FamilyKind::Gauge,
        Tells::Agent(Figure::ChangesAreKept),
        "Whether changes are kept over a restart.",
    ),
    (
        "leasekeep_beginnings",
        FamilyKind::Counter,
        Tells::Agent(Figure::Beginnings),
        "Beginnings: everything is looked up.",
    ),
    (
        "leasekeep_log_dropped_lines",
        FamilyKind::Counter,
        Tells::Agent(Figure::DroppedLines),
        "Log lines that nobody took.",
    ),
    (
        "leasekeep_alerts_dropped",
        FamilyKind::Counter,
        Tells::Agent(Figure::DroppedAlerts),
        "Warnings and alerts that no program was run with.",
    ),
    (
        "leasekeep_behind",
        FamilyKind::Gauge,
        Tells::Agent(Figure::Behind),
        "Whether this agent stands behind another.",
    ),
    (
        "leasekeep_looked_ahead",
        FamilyKind::Counter,
        Tells::Agent(Figure::LookedAhead),
        "Later ends that were found by looking ahead.",
    ),
    (
        "leasekeep_stepped_in",
        FamilyKind::Counter,
        Tells::Agent(Figure::SteppedIn),
        "Times that this agent stepped in for the one in front.",
    ),
    (
        "leasekeep_state",
        FamilyKind::Gauge,
        Tells::Entry(Column::State),
        "1 for the state that the entry is in, 0 for the others.",
    ),
    (
        "leasekeep_end_timestamp_seconds",
        FamilyKind::Gauge,
        Tells::Entry(Column::End),
        "The end of the entry, as far as it is known.",
    ),
    (
        "leasekeep_need_wanted_timestamp_seconds",
        FamilyKind::Gauge,
        Tells::Entry(Column::NeedWanted),
        "Until when the entry is needed, 0 where it is not.",
    ),
    (
        "leasekeep_need_carried_timestamp_seconds",
        FamilyKind::Gauge,
        Tells::Entry(Column::NeedCarried),
        "Until when the entry is needed, by itself or by one under it.",
    ),
    (
        "leasekeep_need_in_force_timestamp_seconds",
        FamilyKind::Gauge,
        Tells::Entry(Column::NeedInForce),
        "Until when the entry can be kept, as far as is known, 0 where it is gone, has ended or waits.",
    ),
    (
        "leasekeep_last_success_timestamp_seconds",
        FamilyKind::Gauge,
        Tells::Entry(Column::LastSuccess),
        "When the entry was last renewed.",
    ),
    (
        "leasekeep_renewals",
        FamilyKind::Counter,
        Tells::Entry(Column::Renewals),
        "Renewals, by what came of them.",
    ),
];
