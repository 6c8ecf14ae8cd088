//! Worked examples of config texts, journal lines and loads, as tests.
#![tactic(auto)]

#[cfg(test)]
mod configs;
#[cfg(test)]
mod journal_lines;
#[cfg(test)]
mod load_commands;
#[cfg(test)]
mod load_lines;
