//! Tests of the back: words, instructions, the machine, images, the engine of stops, lines, scripts and the world
//! outside. It has no code of its own.
#![tactic(auto)]

#[cfg(test)]
mod code_tests;
#[cfg(test)]
mod command_tests;
#[cfg(test)]
mod engine_tests;
#[cfg(test)]
mod image_tests;
#[cfg(test)]
mod line_tests;
#[cfg(test)]
mod machine_tests;
#[cfg(test)]
mod outside_tests;
#[cfg(test)]
mod record_tests;
#[cfg(test)]
mod recovery_tests;
#[cfg(test)]
mod script_tests;
#[cfg(test)]
mod word_tests;
