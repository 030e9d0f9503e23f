//! Threads may share tasks, states and boxes, and states and boxes may move to another thread.

use box_model::StateBox;
use ground_task::{State, Task};

fn is_shared<T: Sync>(_item: &T) {}

fn is_moved<T: Send + Drop>(_item: T) {}

fn task_on_threads(task: &Task) {
    is_shared(task);
}

fn state_on_threads(state: State) {
    is_shared(&state);
    is_moved(state);
}

fn box_on_threads(part: StateBox) {
    is_shared(&part);
    is_moved(part);
}
