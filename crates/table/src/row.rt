use crate::part::Part;

/// Where and when a task runs: a processor, and the parts of its run in their order.
#[derive(Clone, Copy)]
pub struct Row<'a> {
    pub processor: u32,
    pub parts: &'a [Part],
}
