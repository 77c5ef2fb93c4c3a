//! Worked rows of the library's parsers: an input, and what is given for it, whole and over every cut. Each parser is composed in a plain function over any stream. They are compiled for tests only, so that they are proved once.
#![tactic(auto)]

#[cfg(test)]
mod choices;
#[cfg(test)]
mod errors;
#[cfg(test)]
mod messages;
#[cfg(test)]
mod ranges;
#[cfg(test)]
mod repetitions;
#[cfg(test)]
mod rows;
#[cfg(test)]
mod sequences;
#[cfg(test)]
mod show;
#[cfg(test)]
mod tokens;
