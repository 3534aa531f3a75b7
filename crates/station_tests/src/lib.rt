//! Tests of task_stations: tasks from their start to their end.
#![tactic(auto)]

#[cfg(test)]
mod fakes;
#[cfg(test)]
mod tasks;
