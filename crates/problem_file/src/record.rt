use problem::dependency::Dependency;
use problem::exclusion::Exclusion;
use problem::task::Task;
use problem::window::Window;

/// What a record says.
#[derive(Clone, Copy)]
pub enum Item {
    Task(Task),
    Window(Window),
    Dependency(Dependency),
    Exclusion(Exclusion),
}

/// A record of a problem file: what it says, and the part of the file that it is made of.
#[derive(Clone, Copy)]
pub struct Record<'a> {
    pub item: Item,
    pub bytes: &'a [u8],
}
