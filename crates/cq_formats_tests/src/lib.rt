//! Tests of the formats: headers, cells and shapes, times and names, settings, the cells of a cycle, and the files of
//! a queue.
//!
//! They are proved apart from what they test, so that both proofs can run at the same time.
#![tactic(auto)]

#[cfg(test)]
mod chain_tests;
#[cfg(test)]
mod config_text_tests;
#[cfg(test)]
mod cycle_tests;
#[cfg(test)]
mod folder_tests;
#[cfg(test)]
mod header_tests;
#[cfg(test)]
mod image_tests;
#[cfg(test)]
mod layout_tests;
#[cfg(test)]
mod model_tests;
#[cfg(test)]
mod noted_folder;
#[cfg(test)]
mod plain_cycle_tests;
#[cfg(test)]
mod real_folder_tests;
#[cfg(test)]
mod real_steps;
#[cfg(test)]
mod salvage_tests;
#[cfg(test)]
mod settings;
#[cfg(test)]
mod tables_tests;
#[cfg(test)]
mod text_tests;
