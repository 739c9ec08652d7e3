// A task carried through stages, level by level.
// It depends on tasks; the carrying makes it, and the lifting takes it apart.
use tasks::Task;

/// The tasks that a stage is given, and how many tasks each of them becomes.
#[derive(Drop)]
pub struct Level {
    pub tasks: Vec<Task>,
    pub counts: Vec<usize>,
}

/// A task carried through stages: the level that each stage is given, and the tasks after the last stage.
#[derive(Drop)]
pub struct TaskLevels {
    pub levels: Vec<Level>,
    pub tasks: Vec<Task>,
}
