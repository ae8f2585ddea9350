//! Texts with their reports, over stores of all kinds.
mod calls;
mod databases;
mod faults;
mod faulty;
mod groups;
mod limits;
mod reports;
mod runs;
mod scripts;
mod serial;
mod sessions;
mod stops;
mod stores;
mod workers;
mod workloads;
mod writers;
