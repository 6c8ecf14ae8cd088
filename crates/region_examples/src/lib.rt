//! Worked examples of the shared region and of the target's books, as tests.
#![tactic(auto)]

#[cfg(test)]
mod entries;
#[cfg(test)]
mod held_blocks;
#[cfg(test)]
mod mailboxes;
#[cfg(test)]
mod payloads;
#[cfg(test)]
mod pending_commands;
#[cfg(test)]
mod regions;
#[cfg(test)]
mod ring_places;
