//! The tests of txn_bytes, txn_names, serial_spec, event_lists, line_language, session_text and
//! txn_history, each in a module of its own.
#![tactic(auto)]

#[cfg(test)]
mod event_lists_tests;
#[cfg(test)]
mod line_language_tests;
#[cfg(test)]
mod serial_spec_tests;
#[cfg(test)]
mod session_text_tests;
#[cfg(test)]
mod txn_bytes_tests;
#[cfg(test)]
mod txn_history_tests;
#[cfg(test)]
mod txn_names_tests;
