use base_moment::Moment;

/// A round that is open: its moment; for each entry whether its answer is waited for, and how many are; and whether each
/// entry that was told so far has the rule's end and stays renewable.
#[derive(Debug, Drop)]
pub(crate) struct OpenRound {
    pub at: Moment,
    pub waiting: Vec<bool>,
    pub left: u32,
    pub by_rule: bool,
}
